// A record by its lines.
ghost use Rattle.std.specs.Prelude.{◌≡◌, ◌≤◌, ◌<◌, ◌+◌, ◌∷◌, [], length, IfOk, IfSome, None, OnOk};
ghost use Rattle.cip_text.specs.Lines.{content_of, lines_of};
ghost use Rattle.cip_text.specs.Kinds.{is_terminator};
ghost use Rattle.cip_text.specs.Bodies.{body, body_contents, body_lines, closing};
ghost use Rattle.cip_text.specs.Slices.{texts};

use crate::line_kinds::is_terminator;
use crate::line_reader::{split_line, starts_with_byte, trim_line_end};
use std::alloc::{AllocError, Global};
use std::marker::Model;

/// How many bytes a line has, in most records at least: lists of lines get room by it.
const USUAL_LINE: usize = 16;

/// A record with its lines at hand, none of them copied. Contracts see it as its bytes.
#[derive(Drop)]
pub struct RecordLines<'a> {
    bytes: &'a [u8],
    contents: Vec<&'a [u8]>,
    closing: &'a [u8],
}

impl<'a> Model for RecordLines<'a> {
    ghost use Rattle.std.specs.Prelude.{List, ℕ};
    ghost use Rattle.cip_text.specs.Bodies.{AreLinesOf};
    ghost use Rattle.cip_text.specs.Slices.{texts};

    ghost Value = { List ℕ };

    ghost view = { λ record_lines. record_lines.bytes.now };

    ghost invariant = { λ record_lines. AreLinesOf record_lines.bytes.now
        (texts record_lines.contents.items) record_lines.closing.now };
}

impl<'a> RecordLines<'a> {
    /// Splits a record into its lines.
    pub fn new(alloc: Global, bytes: &'a [u8]) -> Result<RecordLines<'a>, AllocError>
        ensures { IfOk result (λ lines. lines ≡ bytes.now) }
    {
        match Vec::with_capacity(alloc, bytes.len() / USUAL_LINE) {
            Ok(mut contents) => match push_contents(bytes, &mut contents) {
                Ok(closing) => Ok(RecordLines {
                    bytes,
                    contents,
                    closing,
                }),
                Err(error) => Err(error),
            },
            Err(error) => Err(error),
        }
    }

    /// The record.
    pub fn bytes(&self) -> &'a [u8]
        ensures { result.now ≡ self.now }
    {
        self.bytes
    }

    /// The content of each line before the terminator line.
    pub fn contents(&self) -> &[&'a [u8]]
        ensures value { texts result.now ≡ body_contents self.now }
        ensures few { length result.now ≤ length self.now }
    {
        &self.contents
    }

    /// The record before its terminator line.
    #[tactic(auto, using(crate::proofs::lemmas::Halves::before_closing, crate::proofs::lemmas::Halves::short_closing))]
    pub fn body(&self) -> &'a [u8]
        ensures { result.now ≡ body self.now }
    {
        &self.bytes[..self.bytes.len() - self.closing.len()]
    }

    /// The record from its terminator line on.
    pub fn trailer(&self) -> &'a [u8]
        ensures { result.now ≡ closing self.now }
    {
        self.closing
    }
}

/// The content of each line of a record before its terminator line, none of it copied.
pub fn body_contents(alloc: Global, bytes: &[u8]) -> Result<Vec<&[u8]>, AllocError>
    ensures value { IfOk result (λ found. texts found.items ≡ body_contents bytes.now) }
    ensures few { IfOk result (λ found. length found.items ≤ length bytes.now) }
{
    match Vec::with_capacity(alloc, bytes.len() / USUAL_LINE) {
        Ok(mut contents) => match push_contents(bytes, &mut contents) {
            Ok(_) => Ok(contents),
            Err(error) => Err(error),
        },
        Err(error) => Err(error),
    }
}

// Puts the contents of the lines before the terminator line into a list that has none, and returns what is from it on.
// proof: the caller keeps the list, so no line drops it
fn push_contents<'a>(bytes: &'a [u8], contents: &mut Vec<&'a [u8]>) -> Result<&'a [u8], AllocError>
    requires { contents.old.items ≡ [] }
    ensures contents { OnOk result (texts contents.new.items ≡ body_contents bytes.now) }
    ensures closing { IfOk result (λ rest. rest.now ≡ closing bytes.now) }
    ensures few { OnOk result (length contents.new.items ≤ length bytes.now) }
{
    let mut rest = bytes;
    while let Some((line, behind)) = split_body_line(rest) {
        let Ok(()) = contents.push(trim_line_end(line)) else {
            return Err(AllocError);
        };
        rest = behind;
    }
    Ok(rest)
}

/// The first line of a record with its end, and what follows it. None at the terminator line, and for the empty
/// record.
#[tactic(auto, using(crate::proofs::lemmas::Halves::closing_itself))]
pub fn split_body_line(bytes: &[u8]) -> Option<(&[u8], &[u8])>
    ensures none { result ≡ None → body_lines (lines_of bytes.now) ≡ [] }
    ensures end { result ≡ None → closing bytes.now ≡ bytes.now }
    ensures line { IfSome result (λ parts. body_lines (lines_of bytes.now)
        ≡ parts.0.now ∷ body_lines (lines_of parts.1.now)) }
    ensures closing { IfSome result (λ parts. closing bytes.now ≡ closing parts.1.now) }
    ensures some { IfSome result (λ parts. length parts.1.now < length bytes.now) }
    ensures whole { IfSome result (λ parts. length parts.0.now + length parts.1.now ≡ length bytes.now) }
{
    match split_line(bytes) {
        Some((line, behind)) => {
            if is_closing(line) {
                None
            } else {
                Some((line, behind))
            }
        }
        None => None,
    }
}

// Whether a line is the terminator line. The first byte decides for most lines.
fn is_closing(line: &[u8]) -> bool
    ensures { result ≡ is_terminator (content_of line.now) }
{
    starts_with_byte(line, b'$') && is_terminator(trim_line_end(line))
}

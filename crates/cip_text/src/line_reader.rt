// The lines of a text.
ghost use Rattle.std.specs.Prelude.{◌≡◌, ◌≤◌, ◌<◌, ◌+◌, ◌++◌, ◌∷◌, ◌^◌, [], ℕ, All, length, slice_get, IfOk, IfSome, Some, None};
ghost use Rattle.cip_text.specs.Lines.{starts_with_byte, lines_of, line_length, ends_with_byte, without_last, content_of, contents_of};
ghost use Rattle.cip_text.specs.Places.{places_of, text_at, place_at, IsWithin};

use crate::list32::List32;
use bstr::ByteSlice;
use std::alloc::{AllocError, Global};

/// Where a line is in a text, in bytes from 0: its content, and the place after its line end.
#[derive(Clone, Copy)]
pub struct Line {
    pub start: u32,
    pub end: u32,
    pub next: u32,
}

/// Where the lines of a text are, in order.
pub type Lines = List32<Line>;

/// Where the lines of a text are. A line ends at LF, and a CR right before that LF belongs to its end; a last
/// line without LF is a line if it isn't empty.
pub fn lines(alloc: Global, bytes: &[u8]) -> Result<Lines, AllocError>
    requires { length bytes.now < 2 ^ 32 }
    ensures places { IfOk result (λ lines. lines ≡ places_of bytes.now) }
    ensures within { IfOk result (λ lines. All (IsWithin (length bytes.now)) lines) }
{
    let mut lines = List32::new(alloc);
    let mut start = 0;
    let mut rest = bytes;
    while let Some((line, behind)) = split_line(rest) {
        let place = place_at(start, line);
        let Ok(()) = lines.push(place) else {
            return Err(AllocError);
        };
        start = place.next;
        rest = behind;
    }
    Ok(lines)
}

/// The content of a line that is here.
#[tactic(auto, using(crate::proofs::lemmas::Standing::content_stands))]
pub fn content(bytes: &[u8], line: Line) -> &[u8]
    requires { IsWithin (length bytes.now) line }
    ensures placed { result.now ≡ text_at bytes.now line }
    ensures content { (k : ℕ) → slice_get (places_of bytes.now) k ≡ Some line
        → slice_get (contents_of bytes.now) k ≡ Some result.now }
{
    &bytes[line.start as usize..line.end as usize]
}

/// The first line with its end, and what follows it. None for the empty text.
#[tactic(auto, using(crate::proofs::lemmas::Firsts::lines_split, crate::proofs::lemmas::Firsts::some_length))]
pub fn split_line(bytes: &[u8]) -> Option<(&[u8], &[u8])>
    ensures none { result ≡ None → bytes.now ≡ [] }
    ensures lines { IfSome result (λ parts. lines_of bytes.now ≡ parts.0.now ∷ lines_of parts.1.now) }
    ensures joined { IfSome result (λ parts. parts.0.now ++ parts.1.now ≡ bytes.now) }
    ensures some { IfSome result (λ parts. 0 < length parts.0.now) }
{
    if bytes.is_empty() {
        None
    } else {
        Some(bytes.split_at(line_length(bytes)))
    }
}

/// A line without its end.
pub fn trim_line_end(line: &[u8]) -> &[u8]
    ensures { result.now ≡ content_of line.now }
{
    if ends_with_byte(line, b'\n') {
        let before = without_last(line);
        if ends_with_byte(before, b'\r') {
            without_last(before)
        } else {
            before
        }
    } else {
        line
    }
}

// The place of a line that begins here.
fn place_at(start: u32, line: &[u8]) -> Line
    requires { start + length line.now < 2 ^ 32 }
    ensures { result ≡ place_at start line.now }
{
    Line {
        start,
        end: start + trim_line_end(line).len() as u32,
        next: start + line.len() as u32,
    }
}

// How long the first line is, with its end.
#[tactic(auto, using(crate::proofs::lemmas::LineLengths::length_to, crate::proofs::lemmas::LineLengths::length_without))]
fn line_length(bytes: &[u8]) -> usize
    ensures value { result ≡ line_length bytes.now }
    ensures within { result ≤ length bytes.now }
{
    match bytes.find_byte(b'\n') {
        Some(place) => place + 1,
        None => bytes.len(),
    }
}

/// Whether a text begins with this byte.
pub fn starts_with_byte(text: &[u8], byte: u8) -> bool
    ensures { result ≡ starts_with_byte byte text.now }
{
    match text {
        [first, ..] => *first == byte,
        [] => false,
    }
}

/// Whether a text ends with this byte.
pub fn ends_with_byte(text: &[u8], byte: u8) -> bool
    ensures { result ≡ ends_with_byte byte text.now }
{
    match text {
        [.., last] => *last == byte,
        [] => false,
    }
}

fn without_last(text: &[u8]) -> &[u8]
    requires { 0 < length text.now }
    ensures { result.now ≡ without_last text.now }
{
    &text[..text.len() - 1]
}

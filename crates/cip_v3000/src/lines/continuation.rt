// Lines, joined where they are continued.
ghost use Rattle.std.specs.Prelude.{◌≡◌, ◌≤◌, ◌<◌, ◌^◌, ◌-◌, ◌+◌, [], All, length, slice_get, IfErr, IfOk, OnOk, Some, None};
ghost use Rattle.cip_mol.specs.declared.labels.refusal.ReadCause.TheVariants.{Frame};
ghost use Rattle.cip_text.specs.Slices.{texts};
ghost use Rattle.cip_v3000.specs.JoinedLines.{begins_v30, body, is_continued, part_of, text_of, next_number, logical_lines};
ghost use Rattle.cip_v3000.specs.Joining.{seen, seen_all, joined_by, parts_at, bytes_of, IsNumbered};

use cip_ctfile::missing_line_fault;
use cip_mol::{ReadCause, ReadFault};
use cip_text::trim_end_spaces;
use std::alloc::{AllocError, Global};

/// The lines that make one, and the number of the first.
#[derive(Clone, Copy)]
pub struct LogicalLine<'a> {
    pub parts: &'a [&'a [u8]],
    pub number: u32,
}

/// The joined lines of a record, and the fault where one more is due.
#[derive(Drop)]
pub struct JoinedLines<'a> {
    pub lines: Vec<LogicalLine<'a>>,
    pub past: ReadFault,
}

/// The text of a joined line. It is copied only where it has several parts.
#[derive(Drop)]
pub enum Text<'a> {
    Whole(&'a [u8]),
    Joined(Vec<u8>),
}

/// The joined lines of a record after its first four.
pub fn logical_lines<'a>(
    alloc: Global,
    lines: &'a [&'a [u8]],
) -> Result<JoinedLines<'a>, AllocError>
    requires few { length lines.now < 2 ^ 32 - 1 }
    ensures value { IfOk result (λ found. seen_all found ≡ logical_lines (texts lines.now)) }
    ensures numbered { IfOk result (λ found. All IsNumbered found.lines.items) }
{
    match Vec::with_capacity(alloc, lines.len()) {
        Ok(mut found) => match join_lines(lines, &mut found) {
            Ok(past) => Ok(JoinedLines { lines: found, past }),
            Err(error) => Err(error),
        },
        Err(error) => Err(error),
    }
}

// Puts the joined lines into a list that has none, and says which fault it is where one more is due.
// proof: the caller keeps the list, so no line drops it
#[tactic(auto, unfolding(crate::specs::JoinedLines::logical_lines))]
fn join_lines<'a>(
    lines: &'a [&'a [u8]],
    found: &mut Vec<LogicalLine<'a>>,
) -> Result<ReadFault, AllocError>
    requires few { length lines.now < 2 ^ 32 - 1 }
    requires none { found.old.items ≡ [] }
    ensures value { IfOk result (λ past. joined_by found.new.items past ≡ logical_lines (texts lines.now)) }
    ensures numbered { OnOk result (All IsNumbered found.new.items) }
{
    let mut first = 4;
    let mut place = 4;
    while place < lines.len() {
        let line = lines[place];
        if !begins_v30(line) {
            return Ok(ReadFault {
                line: place as u32 + 1,
                cause: ReadCause::Frame,
            });
        }
        place += 1;
        if !is_continued(line) {
            let Ok(()) = found.push(joined_line(lines, first, place)) else {
                return Err(AllocError);
            };
            first = place;
        }
    }
    Ok(missing_line_fault(lines))
}

/// The text of a joined line, without what begins and continues its parts.
pub fn text_of<'a>(alloc: Global, line: &LogicalLine<'a>) -> Result<Text<'a>, AllocError>
    ensures { IfOk result (λ text. bytes_of text ≡ text_of (seen line.now)) }
{
    match line.parts {
        [only] => Ok(Text::Whole(part_of(only))),
        parts => {
            let mut text = Vec::new(alloc);
            for part in parts {
                let Ok(()) = text.extend_from_slice(part_of(part)) else {
                    return Err(AllocError);
                };
            }
            Ok(Text::Joined(text))
        }
    }
}

impl<'a> Text<'a> {
    /// Its bytes.
    pub fn bytes(&self) -> &[u8]
        ensures { result.now ≡ bytes_of self.now }
    {
        match self {
            Text::Whole(bytes) => bytes,
            Text::Joined(bytes) => bytes,
        }
    }
}

impl<'a> JoinedLines<'a> {
    /// The line at a place, or the fault where one more is due.
    pub fn line(&self, place: usize) -> Result<LogicalLine<'a>, ReadFault>
        ensures found { IfOk result (λ line. slice_get (seen_all self.now).lines place ≡ Some (seen line)) }
        ensures missing { IfErr result (λ fault. (slice_get (seen_all self.now).lines place ≡ None)
            × (fault ≡ self.now.past)) }
    {
        match self.lines.get(place) {
            None => Err(self.past),
            Some(line) => Ok(*line),
        }
    }
}

impl<'a> LogicalLine<'a> {
    /// The number of the line after it.
    pub fn next_number(&self) -> u32
        requires { IsNumbered self.now }
        ensures { result ≡ next_number (seen self.now) }
    {
        self.number + self.parts.len() as u32
    }
}

// The line that the lines at these places make.
fn joined_line<'a>(lines: &'a [&'a [u8]], first: usize, past: usize) -> LogicalLine<'a>
    requires few { length lines.now < 2 ^ 32 - 1 }
    requires first { first ≤ past }
    requires past { past ≤ length lines.now }
    ensures value { seen result ≡ record { parts = parts_at lines.now first past; number = first + 1 } }
    ensures numbered { IsNumbered result }
{
    LogicalLine {
        parts: &lines[first..past],
        number: first as u32 + 1,
    }
}

fn begins_v30(line: &[u8]) -> bool
    ensures { result ≡ begins_v30 line.now }
{
    line.len() >= 7 && &line[..7] == b"M  V30 ".as_slice()
}

fn is_continued(line: &[u8]) -> bool
    ensures { result ≡ is_continued line.now }
{
    // Most lines end in another byte.
    if !line.is_empty() && line[line.len() - 1] > b'-' {
        false
    } else {
        matches!(trim_end_spaces(body(line)), [.., b'-'])
    }
}

fn body(line: &[u8]) -> &[u8]
    ensures { result.now ≡ body line.now }
{
    if line.len() < 7 { &[] } else { &line[7..] }
}

fn part_of(line: &[u8]) -> &[u8]
    ensures { result.now ≡ part_of line.now }
{
    if is_continued(line) {
        let text = trim_end_spaces(body(line));
        &text[..text.len().saturating_sub(1)]
    } else {
        body(line)
    }
}

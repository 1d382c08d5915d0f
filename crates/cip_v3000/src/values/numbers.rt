// Words that are numbers or coordinates, read as they are taken.
ghost use Rattle.std.specs.Prelude.{◌≡◌, ◌≤◌, [], pos, Some, false, length, nat_lt, IfOk, IfSome, IsNone};
ghost use Rattle.cip_ctfile.specs.Causes.{coordinate};
ghost use Rattle.cip_ctfile.specs.Fields.{parse_number, up_to};
ghost use Rattle.cip_mol.specs.Ranges.{IsPlace};
ghost use Rattle.cip_v3000.specs.AtomLine.{point_by};
ghost use Rattle.cip_v3000.specs.LineWords.{IsNear, HaveNumber, HaveCoordinate, HavePoint};
ghost use Rattle.cip_v3000.specs.NumberWords.{IsNumberBegun};
ghost use Rattle.cip_v3000.specs.Words.{words_of};

use crate::lines::word_splitter::next_word;
use cip_ctfile::{coordinate, parse_decimal_prefix, parse_number, trim_start_spaces};
use cip_mol::ReadCause;
use cip_num::Vec3;

/// The number, from 0 to a most, that the first word of a text is, where it is one, and what comes after the word.
pub fn next_number(most: u32, text: &[u8]) -> Option<(Option<u32>, &[u8])>
    requires { most ≤ 1000000000 }
    ensures some { IfSome result (λ p. HaveNumber most (words_of text.now) p.0 (words_of p.1.now)) }
    ensures none { IsNone result → words_of text.now ≡ [] }
{
    let begun = trim_start_spaces(text);
    match number_begun(begun) {
        Some((number, end)) => Some((at_most(most, number), &begun[end..])),
        None => match next_word(text) {
            Some((word, rest)) => Some((parse_number(most, word), rest)),
            None => None,
        },
    }
}

// The coordinate that the first word of a text is, where it is one, and what comes after the word.
fn next_coordinate(text: &[u8]) -> Option<(Result<i64, ReadCause>, &[u8])>
    ensures some { IfSome result (λ p. HaveCoordinate (words_of text.now) p.0 (words_of p.1.now)) }
    ensures none { IsNone result → words_of text.now ≡ [] }
{
    let begun = trim_start_spaces(text);
    match parse_decimal_prefix(begun) {
        Some((number, end)) => Some((Ok(number), &begun[end..])),
        None => match next_word(text) {
            Some((word, rest)) => Some((coordinate(word), rest)),
            None => None,
        },
    }
}

/// The point whose coordinates the first three words of a text are, where they are some, and what comes after them.
pub fn next_point(text: &[u8]) -> Option<(Result<Vec3, ReadCause>, &[u8])>
    ensures some { IfSome result (λ p. HavePoint (words_of text.now) p.0 (words_of p.1.now)) }
    ensures none { IsNone result → nat_lt 2 (length (words_of text.now)) ≡ false }
{
    if let Some((x, rest)) = next_coordinate(text)
        && let Some((y, rest)) = next_coordinate(rest)
        && let Some((z, rest)) = next_coordinate(rest)
    {
        Some((point(x, y, z), rest))
    } else {
        None
    }
}

fn point(
    x: Result<i64, ReadCause>,
    y: Result<i64, ReadCause>,
    z: Result<i64, ReadCause>,
) -> Result<Vec3, ReadCause>
    requires x { IfOk x IsNear }
    requires y { IfOk y IsNear }
    requires z { IfOk z IsNear }
    ensures value { result ≡ point_by x y z }
    ensures nearer { IfOk result IsPlace }
{
    match (x, y, z) {
        (Ok(x), Ok(y), Ok(z)) => Ok(Vec3 { x, y, z }),
        (Err(cause), _, _) | (_, Err(cause), _) | (_, _, Err(cause)) => Err(cause),
    }
}

// A number that isn't larger than a most.
fn at_most(most: u32, number: u32) -> Option<u32>
    ensures value { result ≡ up_to most (Some (pos number)) }
    ensures range { IfSome result (λ found. found ≤ most) }
{
    if number <= most { Some(number) } else { None }
}

// The number of few digits that begins a text, before a space or its end, and the place after it.
#[tactic(auto, using(crate::proofs::lemmas::NumberWords::number_ends), unfolding(crate::specs::Words::words_of))]
fn number_begun(text: &[u8]) -> Option<(u32, usize)>
    ensures { IfSome result (IsNumberBegun text.now) }
{
    let mut sum: u32 = 0;
    let mut at = 0;
    while at < text.len() && text[at] != b' ' {
        if sum > 99_999 || !text[at].is_ascii_digit() {
            return None;
        }
        sum = 10 * sum + u32::from(text[at] - b'0');
        at += 1;
    }
    if at == 0 {
        return None;
    }
    Some((sum, at))
}

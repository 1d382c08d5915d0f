// The numbers in the columns of a line, which are counted from 1.
ghost use Rattle.std.specs.Prelude.{◌≡◌, ◌≤◌, ◌<◌, ◌+◌, pos, true, unsigned_abs, IfOk, IfSome, Ok};
ghost use Rattle.cip_text.specs.Columns.{field};
ghost use Rattle.cip_text.specs.Numbers.{decimal4_of};
ghost use Rattle.cip_ctfile.specs.Causes.{coordinate};
ghost use Rattle.cip_ctfile.specs.Fields.{number_in, one_based_index};

use crate::causes::coordinate;
use crate::fast_path::{usual_decimal, usual_digit, usual_number};
use crate::fields::{number, place_of};
use cip_mol::ReadCause;
use cip_text::columns;

/// The coordinate in ten columns from this one on, in ten-thousandths of an ångström.
pub fn coordinate_at(line: &[u8], first: u32) -> Result<i64, ReadCause>
    requires counted { 0 < first }
    requires nearer { first ≤ 1000 }
    ensures value { result ≡ coordinate (decimal4_of (field first (first + 9) line.now)) }
    ensures small { IfOk result (λ number. unsigned_abs number ≤ 500000000) }
{
    let start = first as usize - 1;
    if line.len() >= start + 10
        && let Some(number) = usual_decimal(&line[start..start + 10])
    {
        Ok(number)
    } else {
        coordinate(columns(line, first, first + 9))
    }
}

/// The same where a zero is usual, which is seen in few steps.
pub fn z_coordinate_at(line: &[u8], first: u32) -> Result<i64, ReadCause>
    requires counted { 0 < first }
    requires nearer { first ≤ 1000 }
    ensures value { result ≡ coordinate (decimal4_of (field first (first + 9) line.now)) }
    ensures small { IfOk result (λ number. unsigned_abs number ≤ 500000000) }
{
    if has_plain_zero(line, first) {
        Ok(0)
    } else {
        coordinate_at(line, first)
    }
}

/// The number in three columns from this one on, from 0 to a most; 0 where they are empty. Digits after spaces, which
/// are usual, are read in few steps.
#[tactic(auto, using(crate::proofs::lemmas::UsualNumbers::three_read), unfolding(crate::specs::Fields::number_in))]
pub fn number_at(most: u32, line: &[u8], first: u32) -> Option<u32>
    requires most { most ≤ 1000000000 }
    requires counted { 0 < first }
    requires nearer { first ≤ 1000 }
    ensures value { result ≡ number_in most (field first (first + 2) line.now) }
    ensures range { IfSome result (λ number. number ≤ most) }
{
    let start = first as usize - 1;
    if line.len() >= start + 3
        && let Some(number) = usual_number(line[start], line[start + 1], line[start + 2])
    {
        if number <= most { Some(number) } else { None }
    } else {
        number(most, columns(line, first, first + 2))
    }
}

/// The same where a single digit is usual, which is read in few steps.
#[tactic(auto, using(crate::proofs::lemmas::UsualNumbers::three_read), unfolding(crate::specs::Fields::number_in))]
pub fn digit_at(most: u32, line: &[u8], first: u32) -> Option<u32>
    requires most { most ≤ 1000000000 }
    requires counted { 0 < first }
    requires nearer { first ≤ 1000 }
    ensures value { result ≡ number_in most (field first (first + 2) line.now) }
    ensures range { IfSome result (λ number. number ≤ most) }
{
    let start = first as usize - 1;
    if line.len() >= start + 3
        && let Some(number) = usual_digit(line[start], line[start + 1], line[start + 2])
        && number <= most
    {
        Some(number)
    } else {
        number_at(most, line, first)
    }
}

/// The place, from 0, of what the number in three columns from this one on names from 1 to a most.
pub fn place_at(most: u32, line: &[u8], first: u32) -> Option<u32>
    requires most { most ≤ 1000000000 }
    requires counted { 0 < first }
    requires nearer { first ≤ 1000 }
    ensures value { result ≡ one_based_index (number_in most (field first (first + 2) line.now)) }
    ensures range { IfSome result (λ place. place < most) }
{
    match number_at(most, line, first) {
        Some(number) => place_of(number),
        None => None,
    }
}

#[tactic(auto, using(crate::proofs::lemmas::PlainZeros::zero_read))]
fn has_plain_zero(line: &[u8], first: u32) -> bool
    requires counted { 0 < first }
    requires nearer { first ≤ 1000 }
    ensures { result ≡ true → decimal4_of (field first (first + 9) line.now) ≡ Ok (pos 0) }
{
    let start = first as usize - 1;
    line.len() >= start + 10 && &line[start..start + 10] == b"    0.0000".as_slice()
}

// Causes that lines of both versions have alike.
ghost use Rattle.std.specs.Prelude.{◌≡◌, ◌≤◌, unsigned_abs, IfOk, IfSome};
ghost use Rattle.cip_text.specs.Numbers.{decimal4_of};
ghost use Rattle.cip_mol.specs.Bonds.{cause_of};
ghost use Rattle.cip_mol.specs.Ranges.{IsBond};
ghost use Rattle.cip_ctfile.specs.Causes.{coordinate, order_of, unless_refused, IsFree};

use cip_mol::{Bond, BondList, ReadCause};
use cip_text::decimal4;

/// The coordinate in a field or word, in ten-thousandths of an ångström.
pub fn coordinate(text: &[u8]) -> Result<i64, ReadCause>
    ensures value { result ≡ coordinate (decimal4_of text.now) }
    ensures small { IfOk result (λ number. unsigned_abs number ≤ 500000000) }
{
    match decimal4(text) {
        Ok(number) => Ok(number),
        Err(_) => Err(ReadCause::Coordinate),
    }
}

/// The order of a bond by the number of its type, which is 3 at most.
pub fn order(code: Option<u32>) -> Option<u8>
    requires { IfSome code (λ number. number ≤ 3) }
    ensures value { result ≡ order_of code }
    ensures range { IfSome result (λ order. (1 ≤ order) × (order ≤ 3)) }
{
    match code {
        Some(0) | None => None,
        Some(code) => Some(code as u8),
    }
}

/// The bond itself, or the first cause that holds at it after these bonds.
pub fn check_bond(before: &BondList, bond: Bond) -> Result<Bond, ReadCause>
    requires { IsBond bond }
    ensures value { result ≡ unless_refused bond (cause_of before.now.atoms before.now.bonds bond) }
    ensures range { IfOk result IsBond }
    ensures free { IfOk result (IsFree before.now) }
{
    match before.cause_at(&bond) {
        None => Ok(bond),
        Some(cause) => Err(ReadCause::of_bond(cause)),
    }
}

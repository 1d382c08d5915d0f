// Bond lines.
ghost use Rattle.std.specs.Prelude.{◌≡◌, ◌≤◌, IfOk};
ghost use Rattle.cip_mol.specs.Ranges.{IsBond};
ghost use Rattle.cip_ctfile.specs.Causes.{IsFree};
ghost use Rattle.cip_v2000.specs.BondLine.{mark_of, bond_of};

use cip_ctfile::{check_bond, digit_at, order, place_at};
use cip_mol::{Bond, BondList, Mark, ReadCause};

/// What a bond line says, among n atoms and after these bonds.
#[tactic(auto, unfolding(crate::specs::BondLine::bond_of))]
pub fn bond_in(atoms: u32, before: &BondList, line: &[u8]) -> Result<Bond, ReadCause>
    requires few { atoms ≤ 999 }
    requires counted { before.now.atoms ≡ atoms }
    ensures value { result ≡ bond_of atoms before.now.bonds line.now }
    ensures range { IfOk result IsBond }
    ensures free { IfOk result (IsFree before.now) }
{
    match (place_at(atoms, line, 1), place_at(atoms, line, 4)) {
        (Some(a), Some(b)) => match order(digit_at(3, line, 7)) {
            Some(order) => match mark(order, digit_at(6, line, 10)) {
                Some(mark) => check_bond(before, Bond { a, b, order, mark }),
                None => Err(ReadCause::BondMark),
            },
            None => Err(ReadCause::BondType),
        },
        _ => Err(ReadCause::BondEnd),
    }
}

fn mark(order: u8, code: Option<u32>) -> Option<Mark>
    ensures { result ≡ mark_of order code }
{
    match (order, code) {
        (_, Some(0)) => Some(Mark::Plain),
        (1, Some(1)) => Some(Mark::Up),
        (1, Some(4)) | (2, Some(3)) => Some(Mark::Either),
        (1, Some(6)) => Some(Mark::Down),
        _ => None,
    }
}

// A V2000 record in which bonds have other ends and marks.
ghost use Rattle.std.specs.Prelude.{◌≡◌, ◌≤◌, ◌<◌, ◌++◌, ℕ, List, length, slice_get, decimal, ◌+◌, IfOk, OnOk};
ghost use Rattle.cip_edit.specs.Columns.{with_columns};
ghost use Rattle.cip_mol.specs.Drawing.{Drawing};
ghost use Rattle.cip_edit.specs.Edits.{Edit};
ghost use Rattle.cip_edit.specs.Changed.{stereo_of, with_bond, are_drawn_alike, changed_by, change_edit, changed_record, ChangesAreRead};

use crate::{LineEdit, edit_record, with_columns};
use cip_mol::{Bond, Mark, Molecule};
use std::alloc::{AllocError, Global};

/// The record of a molecule with these bonds in place of its own: each bond line whose ends or mark differ has them
/// written anew. The record has no label items.
pub fn changed_record(
    alloc: Global,
    molecule: &Molecule,
    bonds: &[Bond],
    bytes: &[u8],
) -> Result<Vec<u8>, AllocError>
    ensures { IfOk result (λ text. text.items ≡ changed_record molecule.now bonds.now bytes.now) }
{
    edit_record(alloc, &Change { molecule, bonds }, bytes)
}

/// What is written for a record is read as its molecule with the other bonds.
pub fn changes_are_read()
    ensures { ChangesAreRead }
{}

// How the lines of a molecule's record are written where bonds are replaced.
#[derive(Clone, Copy)]
struct Change<'a> {
    molecule: &'a Molecule,
    bonds: &'a [Bond],
}

impl<'a> LineEdit for Change<'a> {
    ghost edit = { λ change. change_edit change.molecule.now change.bonds.now };

    fn push(
        &self,
        alloc: Global,
        text: &mut Vec<u8>,
        number: usize,
        content: &[u8],
    ) -> Result<(), AllocError> {
        let atoms = self.molecule.atoms().len();
        let bonds = self.molecule.bonds();
        if number < 4 {
            text.extend_from_slice(content)
        } else if number < 4 + atoms {
            text.extend_from_slice(content)
        } else if number < 4 + atoms + bonds.len() {
            let place = number - (4 + atoms);
            push_changed(
                alloc,
                text,
                bond_at(bonds, place),
                bond_at(self.bonds, place),
                content,
            )
        } else {
            text.extend_from_slice(content)
        }
    }
}

fn bond_at(bonds: &[Bond], place: usize) -> Option<Bond>
    ensures { result ≡ slice_get bonds.now place }
{
    match bonds.get(place) {
        Some(bond) => Some(*bond),
        None => None,
    }
}

// Adds the line of a bond that another one replaces.
fn push_changed(
    alloc: Global,
    text: &mut Vec<u8>,
    old: Option<Bond>,
    new: Option<Bond>,
    line: &[u8],
) -> Result<(), AllocError>
    ensures { OnOk result (text.new.items ≡ text.old.items ++ changed_by old new line.now) }
{
    match (old, new) {
        (Some(old), Some(new)) if !are_drawn_alike(old, new) => {
            match with_bond(alloc, new, line) {
                Ok(written) => text.extend_from_slice(&written),
                Err(fault) => Err(fault),
            }
        }
        _ => text.extend_from_slice(line),
    }
}

// A bond line with its ends and its stereo field written anew.
#[tactic(auto, unfolding(crate::specs::Changed::with_bond))]
fn with_bond(alloc: Global, bond: Bond, line: &[u8]) -> Result<Vec<u8>, AllocError>
    ensures { IfOk result (λ written. written.items ≡ with_bond bond line.now) }
{
    let Ok(first) = with_number(alloc, 1, u64::from(bond.a) + 1, line) else {
        return Err(AllocError);
    };
    let Ok(second) = with_number(alloc, 4, u64::from(bond.b) + 1, &first) else {
        return Err(AllocError);
    };
    with_number(
        alloc,
        10,
        u64::from(stereo_of(bond.order, bond.mark)),
        &second,
    )
}

/// A line with a number in the three columns from one on.
pub(crate) fn with_number(
    alloc: Global,
    first: usize,
    number: u64,
    line: &[u8],
) -> Result<Vec<u8>, AllocError>
    requires begins { 1 ≤ first }
    requires few { first ≤ 10 }
    ensures { IfOk result (λ written. written.items ≡ with_columns first (first + 2) (decimal number) line.now) }
{
    let Ok(text) = format!(in alloc; "{number}") else {
        return Err(AllocError);
    };
    with_columns(alloc, first, first + 2, text.as_bytes(), line)
}

fn are_drawn_alike(old: Bond, new: Bond) -> bool
    ensures { result ≡ are_drawn_alike old new }
{
    old.a == new.a && old.b == new.b && stereo_of(1, old.mark) == stereo_of(1, new.mark)
}

// The stereo field of a bond.
fn stereo_of(order: u8, mark: Mark) -> u8
    ensures { result ≡ stereo_of order mark }
{
    match mark {
        Mark::Plain => 0,
        Mark::Up => 1,
        Mark::Down => 6,
        Mark::Either if order == 2 => 3,
        Mark::Either => 4,
    }
}

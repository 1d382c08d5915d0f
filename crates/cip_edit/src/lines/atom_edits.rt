// The rows of the two blocks of a V2000 record, and how those of the mirror image are written.
ghost use Rattle.std.specs.Prelude.{◌≡◌, ◌≤◌, ◌<◌, ◌++◌, ℕ, List, length, IfOk, OnOk};
ghost use Rattle.cip_mol.specs.Drawing.{Drawing};
ghost use Rattle.cip_ctfile.specs.Fields.{number_in};
ghost use Rattle.cip_text.specs.Columns.{field};
ghost use Rattle.cip_text.specs.Writing.{coordinate};
ghost use Rattle.cip_edit.specs.Columns.{with_columns};
ghost use Rattle.cip_edit.specs.Edits.{Edit};
ghost use Rattle.cip_edit.specs.Mirror.{mirrored_atom_line, mirrored_bond_line, other_mark, other_code, with_mark, mirror_edit};

use crate::lines::bond_edits::with_number;
use crate::{LineEdit, with_columns};
use cip_ctfile::number;
use cip_mol::Molecule;
use cip_text::{columns, coordinate, decimal4};
use std::alloc::{AllocError, Global};

// How the lines of a molecule's record are mirrored.
#[derive(Clone, Copy)]
pub(crate) struct Mirror<'a> {
    pub(crate) molecule: &'a Molecule,
}

impl<'a> LineEdit for Mirror<'a> {
    ghost edit = { λ mirror. mirror_edit mirror.molecule.now };

    fn push(
        &self,
        alloc: Global,
        text: &mut Vec<u8>,
        number: usize,
        content: &[u8],
    ) -> Result<(), AllocError> {
        let atoms = self.molecule.atoms().len();
        let bonds = self.molecule.bonds().len();
        if number < 4 {
            text.extend_from_slice(content)
        } else if number < 4 + atoms {
            push_atom_line(alloc, text, content)
        } else if number < 4 + atoms + bonds {
            push_bond_line(alloc, text, content)
        } else {
            text.extend_from_slice(content)
        }
    }
}

// Adds the line of a mirrored atom.
#[tactic(auto, unfolding(crate::specs::Mirror::mirrored_atom_line))]
fn push_atom_line(alloc: Global, text: &mut Vec<u8>, line: &[u8]) -> Result<(), AllocError>
    ensures { OnOk result (text.new.items ≡ text.old.items ++ mirrored_atom_line line.now) }
{
    match decimal4(columns(line, 21, 30)) {
        Ok(z) if z != 0 => {
            let Ok(written) = with_height(alloc, -z, line) else {
                return Err(AllocError);
            };
            text.extend_from_slice(&written)
        }
        _ => text.extend_from_slice(line),
    }
}

// The line of an atom with another z.
fn with_height(alloc: Global, z: i64, line: &[u8]) -> Result<Vec<u8>, AllocError>
    ensures { IfOk result (λ written. written.items ≡ with_columns 21 30 (coordinate z) line.now) }
{
    let text = coordinate(alloc, z)?;
    with_columns(alloc, 21, 30, text.as_bytes(), line)
}

// Adds the line of a mirrored bond.
#[tactic(auto, unfolding(crate::specs::Mirror::mirrored_bond_line))]
fn push_bond_line(alloc: Global, text: &mut Vec<u8>, line: &[u8]) -> Result<(), AllocError>
    ensures { OnOk result (text.new.items ≡ text.old.items ++ mirrored_bond_line line.now) }
{
    match mirrored_code(line) {
        Some(code) => {
            let Ok(written) = with_number(alloc, 10, u64::from(code), line) else {
                return Err(AllocError);
            };
            text.extend_from_slice(&written)
        }
        None => text.extend_from_slice(line),
    }
}

// The stereo field that the mirrored bond of a line has, where it has another one.
fn mirrored_code(line: &[u8]) -> Option<u32>
    ensures { result ≡ other_mark (number_in 3 (field 7 9 line.now)) (number_in 6 (field 10 12 line.now)) }
{
    other_mark(
        number(3, columns(line, 7, 9)),
        number(6, columns(line, 10, 12)),
    )
}

// The stereo field of the other mark, where the bond is single and marked up or down.
fn other_mark(order: Option<u32>, code: Option<u32>) -> Option<u32>
    ensures { result ≡ other_mark order code }
{
    match (order, code) {
        (Some(1), Some(1)) => Some(6),
        (Some(1), Some(6)) => Some(1),
        _ => None,
    }
}

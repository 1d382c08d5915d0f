// Whole molfiles.
ghost use Rattle.std.specs.Prelude.{◌≡◌, ◌≤◌, ◌<◌, ◌^◌, ◌-◌, ◌+◌, All, false, length};
ghost use Rattle.cip_text.specs.Bodies.{body_contents};
ghost use Rattle.cip_text.specs.Slices.{texts};
ghost use Rattle.cip_v2000.specs.AtomLine.{IsAtomLine};
ghost use Rattle.cip_v2000.specs.Grammar.{behind_atoms, molecule_of};
ghost use Rattle.cip_ctfile.specs.Reading.{Gives};
ghost use Rattle.cip_v2000.specs.Version.{is_v3000};

use crate::atom_properties::apply_properties;
use crate::atoms::AtomLine;
use crate::blocks::{atom_block, bond_block, counts_line, property_block};
use crate::counts::CountsLine;
use cip_mol::{Molecule, ReadRefusal};
use cip_text::body_contents;
use std::alloc::{AllocError, Global};

/// The molecule of a record without label items, or the first line with a fault and its first cause. The cost is
/// linear in the record.
pub fn read(alloc: Global, bytes: &[u8]) -> Result<Molecule, ReadRefusal>
    requires few { length bytes.now < 2 ^ 32 - 1 }
    requires version { is_v3000 (body_contents bytes.now) ≡ false }
    ensures { Gives (λ molecule. molecule) result (molecule_of (body_contents bytes.now)) }
{
    match body_contents(alloc, bytes) {
        Ok(lines) => read_lines(alloc, &lines),
        Err(AllocError) => Err(ReadRefusal::Memory),
    }
}

/// The molecule of the contents of a record's lines before its terminator line, as `read` has it.
#[tactic(auto, unfolding(crate::specs::Grammar::molecule_of))]
pub fn read_lines(alloc: Global, lines: &[&[u8]]) -> Result<Molecule, ReadRefusal>
    requires few { length lines.now < 2 ^ 32 - 1 }
    requires version { is_v3000 (texts lines.now) ≡ false }
    ensures { Gives (λ molecule. molecule) result (molecule_of (texts lines.now)) }
{
    match counts_line(lines) {
        Ok(counts) => match atom_block(alloc, lines, counts.atoms) {
            Ok(atoms) => drawn(alloc, lines, counts, &atoms),
            Err(refusal) => Err(refusal),
        },
        Err(fault) => Err(ReadRefusal::Fault(fault)),
    }
}

// Reads on from the bond lines.
// proof: the caller keeps the atom lines
fn drawn(
    alloc: Global,
    lines: &[&[u8]],
    counts: CountsLine,
    atom_lines: &[AtomLine],
) -> Result<Molecule, ReadRefusal>
    requires few { length lines.now < 2 ^ 32 - 1 }
    requires counts { (counts.atoms ≤ 999) × (counts.bonds ≤ 999) }
    requires there { 4 + counts.atoms ≤ length lines.now }
    requires range { All IsAtomLine atom_lines.now }
    requires counted { length atom_lines.now ≡ counts.atoms }
    ensures { Gives (λ molecule. molecule) result (behind_atoms (texts lines.now) counts atom_lines.now) }
{
    match bond_block(alloc, lines, counts.atoms, counts.bonds) {
        Ok(bonds) => {
            let before = 4 + (counts.atoms as usize + counts.bonds as usize);
            match property_block(alloc, lines, counts.atoms, before) {
                Ok(pairs) => match apply_properties(alloc, &pairs, atom_lines) {
                    Ok(atoms) => Ok(Molecule::from_bonds(atoms, bonds)),
                    Err(AllocError) => Err(ReadRefusal::Memory),
                },
                Err(refusal) => Err(refusal),
            }
        }
        Err(refusal) => Err(refusal),
    }
}

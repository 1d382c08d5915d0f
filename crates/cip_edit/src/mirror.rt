// The mirror image of a record.
ghost use Rattle.std.specs.Prelude.{◌≡◌, ◌<◌, ◌-◌, ◌^◌, length, IfOk};
ghost use Rattle.std.specs.List.{list_any};
ghost use Rattle.cip_edit.specs.Answers.{answer_drawn, answer_without_items, is_too_high, IsFew};
ghost use Rattle.cip_edit.specs.Mirror.{mirrored_record};

use crate::edit_record;
use crate::lines::atom_edits::Mirror;
use crate::mirror_answer::{MirrorAnswer, MirrorRefusal};
use cip_mol::{Atom, Molecule, ReadRefusal};
use cip_molfile::read_molecule;
use cip_text::{Bytes, RecordLines};
use cip_v2000::is_v3000;
use std::alloc::{AllocError, Global};

/// The record of the mirror image, for one that has no label items, with its lines at hand: every z that isn't 0 is
/// negated, and single bonds marked up or down get the other mark. Else no byte changes.
pub fn mirror_lines(alloc: Global, lines: &RecordLines) -> Result<MirrorAnswer, AllocError>
    requires { length lines.now < 2 ^ 32 - 1 }
    ensures answer { IfOk result (λ answer. answer ≡ answer_without_items lines.now) }
    ensures few { IfOk result (λ answer. IsFew lines.now answer) }
{
    answer_lines(alloc, lines)
}

#[tactic(auto, unfolding(crate::specs::Answers::answer_without_items))]
fn answer_lines(alloc: Global, lines: &RecordLines) -> Result<MirrorAnswer, AllocError>
    requires { length lines.now < 2 ^ 32 - 1 }
    ensures { IfOk result (λ answer. answer ≡ answer_without_items lines.now) }
{
    match read_molecule(alloc, lines.contents()) {
        Ok(molecule) => answer_drawn(alloc, lines, &molecule),
        Err(ReadRefusal::Fault(fault)) => Ok(MirrorAnswer::Refused(MirrorRefusal::Grammar(fault))),
        Err(ReadRefusal::Memory) => Err(AllocError),
    }
}

// Of what these lines draw.
fn answer_drawn(
    alloc: Global,
    lines: &RecordLines,
    molecule: &Molecule,
) -> Result<MirrorAnswer, AllocError>
    ensures { IfOk result (λ answer. answer ≡ answer_drawn lines.now molecule.now) }
{
    if is_v3000(lines.contents()) {
        Ok(MirrorAnswer::Refused(MirrorRefusal::OnlyV2000))
    } else if has_too_high(molecule.atoms()) {
        Ok(MirrorAnswer::Refused(MirrorRefusal::Width))
    } else {
        match mirrored(alloc, molecule, lines.bytes()) {
            Ok(text) => Ok(MirrorAnswer::Written(Bytes::from_vec(text))),
            Err(fault) => Err(fault),
        }
    }
}

fn mirrored(alloc: Global, molecule: &Molecule, bytes: &[u8]) -> Result<Vec<u8>, AllocError>
    ensures { IfOk result (λ text. text.items ≡ mirrored_record molecule.now bytes.now) }
{
    edit_record(alloc, &Mirror { molecule }, bytes)
}

fn has_too_high(atoms: &[Atom]) -> bool
    ensures { result ≡ list_any is_too_high atoms.now }
{
    for atom in atoms {
        if atom.at.z > 99_999_999 {
            return true;
        }
    }
    false
}

// Single lines of a molfile.
ghost use Rattle.std.specs.Prelude.{◌≡◌, ◌≤◌, length, Ok, IfOk};
ghost use Rattle.cip_ctfile.specs.Reading.{Gives, numbered};
ghost use Rattle.cip_v3000.specs.AtomLine.{atom_of, IsAtomLine};
ghost use Rattle.cip_v3000.specs.BondLine.{bond_of, IsBondLine};
ghost use Rattle.cip_v3000.specs.CountsLine.{counts_of, AreCounts};
ghost use Rattle.cip_v3000.specs.Frames.{is_frame};
ghost use Rattle.cip_v3000.specs.Grammar.{words_in, read_at, frame_at};
ghost use Rattle.cip_v3000.specs.Joining.{seen, seen_all};

use crate::atom_indices::AtomIndices;
use crate::atoms::{AtomLine, atom_in};
use crate::bonds::{BondLine, bond_in};
use crate::lines::block_lines::{BlockLine, is_frame_text};
use crate::lines::continuation::{JoinedLines, LogicalLine, text_of};
use crate::values::counts::{CountsLine, counts_in};
use cip_ctfile::fault_at_line;
use cip_mol::{BondList, ReadCause, ReadFault, ReadRefusal};
use std::alloc::{AllocError, Global};

/// Reads the counts line.
#[tactic(auto, unfolding(crate::specs::Grammar::read_at))]
pub fn counts_line(alloc: Global, joined: &JoinedLines<'_>) -> Result<CountsLine, ReadRefusal>
    ensures value { Gives (λ counts. counts) result (read_at (seen_all joined.now) 1 counts_of) }
    ensures range { IfOk result AreCounts }
{
    match joined.line(1) {
        Ok(line) => match text_of(alloc, &line) {
            Ok(text) => output(line.number, counts_in(text.bytes())),
            Err(AllocError) => Err(ReadRefusal::Memory),
        },
        Err(fault) => Err(ReadRefusal::Fault(fault)),
    }
}

/// Reads the atom line at a place, after atoms of these indices.
#[tactic(auto, unfolding(crate::specs::Grammar::read_at))]
pub fn atom_line(
    alloc: Global,
    joined: &JoinedLines<'_>,
    place: usize,
    known: &AtomIndices,
) -> Result<AtomLine, ReadRefusal>
    ensures value { Gives (λ line. line) result (read_at (seen_all joined.now) place (atom_of known.now)) }
    ensures range { IfOk result (IsAtomLine known.now) }
{
    match joined.line(place) {
        Ok(line) => match text_of(alloc, &line) {
            Ok(text) => output(line.number, atom_in(known, text.bytes())),
            Err(AllocError) => Err(ReadRefusal::Memory),
        },
        Err(fault) => Err(ReadRefusal::Fault(fault)),
    }
}

/// Reads the bond line at a place, among atoms of these indices and after these bonds.
#[tactic(auto, unfolding(crate::specs::Grammar::read_at))]
pub fn bond_line(
    alloc: Global,
    joined: &JoinedLines<'_>,
    place: usize,
    atoms: &AtomIndices,
    known: &AtomIndices,
    before: &BondList,
) -> Result<BondLine, ReadRefusal>
    requires few { length atoms.now ≤ 1000000000 }
    requires among { before.now.atoms ≡ length atoms.now }
    ensures value { Gives (λ line. line) result
        (read_at (seen_all joined.now) place (bond_of atoms.now known.now before.now.bonds)) }
    ensures range { IfOk result (IsBondLine known.now before.now) }
{
    match joined.line(place) {
        Ok(line) => match text_of(alloc, &line) {
            Ok(text) => output(line.number, bond_in(atoms, known, before, text.bytes())),
            Err(AllocError) => Err(ReadRefusal::Memory),
        },
        Err(fault) => Err(ReadRefusal::Fault(fault)),
    }
}

/// Reads the line at a place that frames a part.
#[tactic(auto, unfolding(crate::specs::Grammar::read_at))]
pub fn expect_block_line(
    alloc: Global,
    joined: &JoinedLines<'_>,
    place: usize,
    due: BlockLine,
) -> Result<(), ReadRefusal>
    ensures { Gives (λ _. tt) result (frame_at (seen_all joined.now) place due) }
{
    match joined.line(place) {
        Ok(line) => match is_framed(alloc, &line, due) {
            Ok(true) => Ok(()),
            Ok(false) => Err(ReadRefusal::Fault(ReadFault {
                line: line.number,
                cause: ReadCause::Frame,
            })),
            Err(AllocError) => Err(ReadRefusal::Memory),
        },
        Err(fault) => Err(ReadRefusal::Fault(fault)),
    }
}

// What was read of a line, with the line's number in its fault.
// proof: the caller keeps the text and drops it once
fn output<T: Copy>(number: u32, read: Result<T, ReadCause>) -> Result<T, ReadRefusal>
    ensures value { Gives (λ row. row) result (numbered number read) }
    ensures read { IfOk result (λ row. read ≡ Ok row) }
{
    match fault_at_line(number, read) {
        Ok(row) => Ok(row),
        Err(fault) => Err(ReadRefusal::Fault(fault)),
    }
}

/// Whether a joined line is the one that frames a part.
pub fn is_framed(alloc: Global, line: &LogicalLine<'_>, due: BlockLine) -> Result<bool, AllocError>
    ensures { IfOk result (λ is. is ≡ is_frame due (words_in (seen line.now))) }
{
    match text_of(alloc, line) {
        Ok(text) => Ok(is_frame_text(due, text.bytes())),
        Err(error) => Err(error),
    }
}

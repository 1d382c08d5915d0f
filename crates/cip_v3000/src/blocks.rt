// The blocks of a molfile.
ghost use Rattle.std.specs.Prelude.{◌≡◌, ◌≤◌, ◌<◌, ◌+◌, ◌-◌, ◌^◌, [], All, drop, length, map, IfOk, OnOk};
ghost use Rattle.cip_text.specs.Kinds.{is_molecule_end};
ghost use Rattle.cip_text.specs.Slices.{texts};
ghost use Rattle.cip_ctfile.specs.Reading.{Gives};
ghost use Rattle.cip_v3000.specs.Blocks.{seen_atoms, seen_bonds, AreAtoms, AreBonds, HasNoBonds};
ghost use Rattle.cip_v3000.specs.Grammar.{atom_block, atom_row, bond_row, bond_rows, has_bond_block, bond_block, behind_block, table_end, molecule_end};
ghost use Rattle.cip_v3000.specs.Joining.{seen, seen_all, IsNumbered};

use crate::atom_indices::AtomIndices;
use crate::lines::block_lines::BlockLine;
use crate::lines::continuation::{JoinedLines, LogicalLine};
use crate::lines::rows::{atom_line, bond_line, expect_block_line, is_framed};
use cip_ctfile::missing_line_fault;
use cip_mol::{Atom, BondList, ReadFault, ReadRefusal};
use cip_text::is_molecule_end;
use std::alloc::{AllocError, Global};

/// Atoms with their indices.
#[derive(Drop)]
pub struct AtomBlock {
    pub indices: AtomIndices,
    pub atoms: Vec<Atom>,
}

/// Bonds with their indices.
#[derive(Drop)]
pub struct BondBlock {
    pub indices: AtomIndices,
    pub bonds: BondList,
}

/// Reads n atom lines.
pub fn atom_block(
    alloc: Global,
    joined: &JoinedLines<'_>,
    count: u32,
) -> Result<AtomBlock, ReadRefusal>
    requires { count ≤ 16384 }
    ensures value { Gives seen_atoms result (atom_block (seen_all joined.now) count) }
    ensures are { IfOk result (AreAtoms count) }
{
    match Vec::with_capacity(alloc, count as usize) {
        Ok(atoms) => {
            let mut block = AtomBlock {
                indices: AtomIndices::new(alloc),
                atoms,
            };
            match read_atoms(alloc, joined, count, &mut block) {
                Ok(()) => Ok(block),
                Err(refusal) => Err(refusal),
            }
        }
        Err(AllocError) => Err(ReadRefusal::Memory),
    }
}

// Reads n atoms into a block that has none.
// proof: the caller keeps the block, so no row drops it
fn read_atoms(
    alloc: Global,
    joined: &JoinedLines<'_>,
    count: u32,
    block: &mut AtomBlock,
) -> Result<(), ReadRefusal>
    requires count { count ≤ 16384 }
    requires none { seen_atoms block.old ≡ record { indices = []; atoms = [] } }
    ensures value { Gives (λ _. seen_atoms block.new) result (atom_block (seen_all joined.now) count) }
    ensures are { OnOk result (AreAtoms count block.new) }
{
    for row in 0..count as usize {
        match read_atom(alloc, joined, row, block) {
            Ok(()) => (),
            Err(refusal) => return Err(refusal),
        }
    }
    Ok(())
}

// Puts the atom of a row after those before it.
fn read_atom(
    alloc: Global,
    joined: &JoinedLines<'_>,
    row: usize,
    block: &mut AtomBlock,
) -> Result<(), ReadRefusal>
    requires row { row < 16384 }
    requires are { AreAtoms row block.old }
    ensures value { Gives (λ _. seen_atoms block.new) result
        (atom_row (seen_all joined.now) (seen_atoms block.old) row) }
    ensures are { OnOk result (AreAtoms (row + 1) block.new) }
{
    match atom_line(alloc, joined, 3 + row, &block.indices) {
        Ok(line) => match block.indices.push(line.index) {
            Ok(()) => match block.atoms.push(line.atom) {
                Ok(()) => Ok(()),
                Err(_) => Err(ReadRefusal::Memory),
            },
            Err(AllocError) => Err(ReadRefusal::Memory),
        },
        Err(refusal) => Err(refusal),
    }
}

/// Whether there is a bond block at a place. It may be missing where there are no bonds.
pub fn has_bond_block(
    alloc: Global,
    joined: &JoinedLines<'_>,
    count: u32,
    place: usize,
) -> Result<bool, AllocError>
    ensures { IfOk result (λ has. has ≡ has_bond_block (seen_all joined.now) count place) }
{
    if count != 0 {
        Ok(true)
    } else {
        match joined.lines.get(place) {
            None => Ok(false),
            Some(line) => is_framed(alloc, line, BlockLine::BeginBonds),
        }
    }
}

/// Bonds that are still to be read, between these atoms.
pub fn no_bonds(alloc: Global, atoms: &AtomIndices) -> Result<BondBlock, AllocError>
    ensures { IfOk result (HasNoBonds (length atoms.now)) }
{
    match BondList::new(alloc, atoms.len()) {
        Ok(bonds) => Ok(BondBlock {
            indices: AtomIndices::new(alloc),
            bonds,
        }),
        Err(error) => Err(error),
    }
}

/// Reads the bond block at a place, where there is one, and says which place is after it.
// proof: the caller keeps the bonds, so no exit drops them
pub fn bond_block(
    alloc: Global,
    joined: &JoinedLines<'_>,
    atoms: &AtomIndices,
    count: u32,
    place: usize,
    block: &mut BondBlock,
) -> Result<usize, ReadRefusal>
    requires few { length atoms.now ≤ 16384 }
    requires count { count ≤ 32768 }
    requires place { place ≤ 16388 }
    requires none { HasNoBonds (length atoms.now) block.old }
    ensures value { Gives (λ _. seen_bonds block.new) result (bond_block (seen_all joined.now) atoms.now count place) }
    ensures behind { IfOk result (λ behind. behind
        ≡ behind_block (has_bond_block (seen_all joined.now) count place) count place) }
    ensures are { OnOk result (AreBonds (length atoms.now) count block.new) }
{
    match has_bond_block(alloc, joined, count, place) {
        Ok(true) => match expect_block_line(alloc, joined, place, BlockLine::BeginBonds) {
            Ok(()) => match read_bonds(alloc, joined, atoms, place + 1, count, block) {
                Ok(()) => {
                    let end = place + 1 + count as usize;
                    match expect_block_line(alloc, joined, end, BlockLine::EndBonds) {
                        Ok(()) => Ok(place + count as usize + 2),
                        Err(refusal) => Err(refusal),
                    }
                }
                Err(refusal) => Err(refusal),
            },
            Err(refusal) => Err(refusal),
        },
        Ok(false) => Ok(place),
        Err(AllocError) => Err(ReadRefusal::Memory),
    }
}

/// The number of the line after the end of the table, which is at this place of the joined lines or after it;
/// `past` is the fault where it doesn't.
pub fn table_end(
    alloc: Global,
    lines: &[LogicalLine<'_>],
    past: ReadFault,
    first: usize,
) -> Result<u32, ReadRefusal>
    requires { All IsNumbered lines.now }
    ensures { Gives (λ number. number) result (table_end past (drop first (map seen lines.now))) }
{
    let mut place = first;
    while place < lines.len() {
        let line = lines[place];
        match is_framed(alloc, &line, BlockLine::EndTable) {
            Ok(true) => return Ok(line.next_number()),
            Ok(false) => place += 1,
            Err(AllocError) => return Err(ReadRefusal::Memory),
        }
    }
    Err(ReadRefusal::Fault(past))
}

/// Whether `M  END` is at the line of this number or after it.
pub fn molecule_end(lines: &[&[u8]], number: u32) -> Result<(), ReadFault>
    requires { length lines.now < 2 ^ 32 - 1 }
    ensures { result ≡ molecule_end (texts lines.now) number }
{
    let mut place = number.saturating_sub(1) as usize;
    while place < lines.len() {
        if is_molecule_end(lines[place]) {
            return Ok(());
        }
        place += 1;
    }
    Err(missing_line_fault(lines))
}

// Reads n bond lines, from this place on, into a block that has no bonds.
fn read_bonds(
    alloc: Global,
    joined: &JoinedLines<'_>,
    atoms: &AtomIndices,
    first: usize,
    count: u32,
    block: &mut BondBlock,
) -> Result<(), ReadRefusal>
    requires few { length atoms.now ≤ 16384 }
    requires count { count ≤ 32768 }
    requires first { first ≤ 16389 }
    requires none { HasNoBonds (length atoms.now) block.old }
    ensures value { Gives (λ _. seen_bonds block.new) result (bond_rows (seen_all joined.now) atoms.now first count) }
    ensures are { OnOk result (AreBonds (length atoms.now) count block.new) }
{
    for row in 0..count as usize {
        match read_bond(alloc, joined, atoms, first, row, block) {
            Ok(()) => (),
            Err(refusal) => return Err(refusal),
        }
    }
    Ok(())
}

// Puts the bond of a row after those before it.
fn read_bond(
    alloc: Global,
    joined: &JoinedLines<'_>,
    atoms: &AtomIndices,
    first: usize,
    row: usize,
    block: &mut BondBlock,
) -> Result<(), ReadRefusal>
    requires few { length atoms.now ≤ 16384 }
    requires first { first ≤ 16389 }
    requires row { row < 32768 }
    requires are { AreBonds (length atoms.now) row block.old }
    ensures value { Gives (λ _. seen_bonds block.new) result
        (bond_row (seen_all joined.now) atoms.now first (seen_bonds block.old) row) }
    ensures are { OnOk result (AreBonds (length atoms.now) (row + 1) block.new) }
{
    let place = first + row;
    match bond_line(alloc, joined, place, atoms, &block.indices, &block.bonds) {
        Ok(line) => match block.indices.push(line.index) {
            Ok(()) => match block.bonds.push(line.bond) {
                Ok(()) => Ok(()),
                Err(_) => Err(ReadRefusal::Memory),
            },
            Err(AllocError) => Err(ReadRefusal::Memory),
        },
        Err(refusal) => Err(refusal),
    }
}

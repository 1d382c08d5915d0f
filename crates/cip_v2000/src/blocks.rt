// The blocks of a molfile.
ghost use Rattle.std.specs.Prelude.{◌≡◌, ◌≤◌, ◌<◌, ◌+◌, ◌^◌, ◌-◌, [], All, length, slice_get, IfErr, IfOk, Some, None};
ghost use Rattle.cip_mol.specs.declared.labels.refusal.ReadCause.TheVariants.{Short};
ghost use Rattle.cip_text.specs.Slices.{texts};
ghost use Rattle.cip_mol.specs.Ranges.{IsBond};
ghost use Rattle.cip_v2000.specs.AtomLine.{atom_of, IsAtomLine};
ghost use Rattle.cip_v2000.specs.BondLine.{bond_of};
ghost use Rattle.cip_v2000.specs.CountsLine.{counts_of};
ghost use Rattle.cip_v2000.specs.Grammar.{atom_row, bond_row, pairs_behind};
ghost use Rattle.cip_ctfile.specs.Causes.{IsFree};
ghost use Rattle.cip_ctfile.specs.Reading.{read_at, in_turn, Gives};
ghost use Rattle.cip_v2000.specs.Statements.{IsPair};

use crate::atom_properties::Pair;
use crate::atoms::{AtomLine, atom_in};
use crate::bonds::bond_in;
use crate::counts::{CountsLine, counts_in};
use crate::properties::push_properties;
use cip_ctfile::{fault_at_line, missing_line_fault};
use cip_mol::{Bond, BondList, ReadCause, ReadFault, ReadRefusal};
use cip_text::is_molecule_end;
use std::alloc::Global;

/// Reads the counts line.
#[tactic(auto, unfolding(cip_ctfile::specs::Reading::read_at))]
pub fn counts_line(lines: &[&[u8]]) -> Result<CountsLine, ReadFault>
    requires { length lines.now < 2 ^ 32 - 1 }
    ensures value { result ≡ read_at (texts lines.now) 3 counts_of }
    ensures range { IfOk result (λ counts. (counts.atoms ≤ 999) × (counts.bonds ≤ 999)) }
    ensures there { IfOk result (λ _. 4 ≤ length lines.now) }
{
    match line_at(lines, 3) {
        Ok(line) => fault_at_line(4, counts_in(line)),
        Err(fault) => Err(fault),
    }
}

/// Reads n atom lines.
pub fn atom_block(alloc: Global, lines: &[&[u8]], count: u32) -> Result<Vec<AtomLine>, ReadRefusal>
    requires few { length lines.now < 2 ^ 32 - 1 }
    requires there { 4 ≤ length lines.now }
    requires count { count ≤ 999 }
    ensures value { Gives (λ atoms. atoms.items) result (in_turn (atom_row (texts lines.now)) [] count 0) }
    ensures range { IfOk result (λ atoms. All IsAtomLine atoms.items) }
    ensures counted { IfOk result (λ atoms. length atoms.items ≡ count) }
    ensures there { IfOk result (λ _. 4 + count ≤ length lines.now) }
{
    let Ok(mut atoms) = Vec::with_capacity(alloc, count as usize) else {
        return Err(ReadRefusal::Memory);
    };
    for row in 0..count as usize {
        match atom_line(lines, 4 + row) {
            Ok(atom) => atoms.push_reserved(atom),
            Err(fault) => return Err(ReadRefusal::Fault(fault)),
        }
    }
    Ok(atoms)
}

/// Reads the bond lines after the lines of the atoms.
pub fn bond_block(
    alloc: Global,
    lines: &[&[u8]],
    atoms: u32,
    count: u32,
) -> Result<BondList, ReadRefusal>
    requires few { length lines.now < 2 ^ 32 - 1 }
    requires atoms { atoms ≤ 999 }
    requires count { count ≤ 999 }
    requires there { 4 + atoms ≤ length lines.now }
    ensures value { Gives (λ list. list.bonds) result (in_turn (bond_row (texts lines.now) atoms) [] count 0) }
    ensures among { IfOk result (λ list. list.atoms ≡ atoms) }
    ensures range { IfOk result (λ list. All IsBond list.bonds) }
    ensures counted { IfOk result (λ list. length list.bonds ≡ count) }
    ensures there { IfOk result (λ _. 4 + atoms + count ≤ length lines.now) }
{
    let first = 4 + atoms as usize;
    let Ok(mut bonds) = BondList::new(alloc, atoms as usize) else {
        return Err(ReadRefusal::Memory);
    };
    for row in 0..count as usize {
        match bond_line(lines, first + row, atoms, &bonds) {
            Ok(bond) => {
                let Ok(()) = bonds.push(bond) else {
                    return Err(ReadRefusal::Memory);
                };
            }
            Err(fault) => return Err(ReadRefusal::Fault(fault)),
        }
    }
    Ok(bonds)
}

/// Reads the property lines after n lines, up to `M  END`.
pub fn property_block(
    alloc: Global,
    lines: &[&[u8]],
    atoms: u32,
    before: usize,
) -> Result<Vec<Pair>, ReadRefusal>
    requires few { length lines.now < 2 ^ 32 - 1 }
    requires atoms { atoms ≤ 999 }
    requires before { before ≤ length lines.now }
    ensures value { Gives (λ pairs. pairs.items) result (pairs_behind atoms before (texts lines.now)) }
    ensures range { IfOk result (λ pairs. All IsPair pairs.items) }
{
    let mut pairs = Vec::new(alloc);
    for place in before..lines.len() {
        let line = lines[place];
        if is_molecule_end(line) {
            return Ok(pairs);
        }
        let fault = ReadFault {
            line: place as u32 + 1,
            cause: ReadCause::Property,
        };
        match push_properties(alloc, &mut pairs, fault, atoms, line) {
            Ok(()) => (),
            Err(refusal) => return Err(refusal),
        }
    }
    Err(ReadRefusal::Fault(missing_line_fault(lines)))
}

#[tactic(auto, unfolding(cip_ctfile::specs::Reading::read_at))]
fn atom_line(lines: &[&[u8]], place: usize) -> Result<AtomLine, ReadFault>
    requires { length lines.now < 2 ^ 32 - 1 }
    ensures value { result ≡ read_at (texts lines.now) place atom_of }
    ensures range { IfOk result IsAtomLine }
    ensures there { IfOk result (λ _. place < length lines.now) }
{
    match line_at(lines, place) {
        Ok(line) => fault_at_line(place as u32 + 1, atom_in(line)),
        Err(fault) => Err(fault),
    }
}

#[tactic(auto, unfolding(cip_ctfile::specs::Reading::read_at))]
fn bond_line(
    lines: &[&[u8]],
    place: usize,
    atoms: u32,
    before: &BondList,
) -> Result<Bond, ReadFault>
    requires few { length lines.now < 2 ^ 32 - 1 }
    requires atoms { atoms ≤ 999 }
    requires among { before.now.atoms ≡ atoms }
    ensures value { result ≡ read_at (texts lines.now) place (bond_of atoms before.now.bonds) }
    ensures range { IfOk result IsBond }
    ensures free { IfOk result (IsFree before.now) }
    ensures there { IfOk result (λ _. place < length lines.now) }
{
    match line_at(lines, place) {
        Ok(line) => fault_at_line(place as u32 + 1, bond_in(atoms, before, line)),
        Err(fault) => Err(fault),
    }
}

// The line at a place, from 0, where it is there.
fn line_at<'a>(lines: &[&'a [u8]], place: usize) -> Result<&'a [u8], ReadFault>
    requires { length lines.now < 2 ^ 32 - 1 }
    ensures found { IfOk result (λ line. slice_get (texts lines.now) place ≡ Some line.now) }
    ensures there { IfOk result (λ _. place < length lines.now) }
    ensures missing { IfErr result (λ fault. (slice_get (texts lines.now) place ≡ None)
        × (fault ≡ record { line = length lines.now + 1; cause = Short })) }
{
    match lines.get(place) {
        None => Err(missing_line_fault(lines)),
        Some(line) => Ok(line),
    }
}

// Molecules that rows write: the symbols of atoms, and bonds as words.
ghost use Rattle.std.specs.Prelude.{◌≤◌, All, IfOk, length};
ghost use Rattle.cip_mol.specs.Ranges.{IsAtom, IsBond};

use crate::molecule_rows::molecules::{Drawn, drawn_if};
use cip_mol::{Atom, Bond, Mark, Molecule};
use cip_num::Vec3;
use gate_tables::Row;
use std::alloc::{AllocError, Global};

// Both ends of a bond, and its order.
type Ends = (u32, u32, u8);

/// What the molecule of a row has, whose hydrogens come after its atoms.
pub fn written(alloc: Global, row: &Row) -> Result<Option<Drawn>, AllocError> {
    let molecule = molecule(alloc, row)?;
    let drawn = drawn_if(alloc, &molecule);
    // proof: dropped by a call, which is quicker to prove than the end of scope
    drop(molecule);
    drawn
}

/// The molecule of a row, if it is one.
pub fn molecule(alloc: Global, row: &Row) -> Result<Option<Molecule>, AllocError> {
    let ends = ends_of(alloc, row.field(3))?;
    molecule_of(alloc, row.field(2).as_bytes(), &ends)
}

// The same by the symbols of its atoms and its bonds.
fn molecule_of(
    alloc: Global,
    symbols: &[u8],
    ends: &[Ends],
) -> Result<Option<Molecule>, AllocError> {
    if symbols.len() > 100 || ends.len() > 100 {
        return Ok(None);
    }
    let atoms = atoms(alloc, symbols)?;
    let bonds = bonds(alloc, ends)?;
    Ok(Molecule::new(alloc, atoms, bonds).ok())
}

fn ends_of(alloc: Global, words: &str) -> Result<Vec<Ends>, AllocError> {
    let mut ends = Vec::new(alloc);
    for word in words.split_whitespace() {
        ends.push(ends_in(word))?;
    }
    Ok(ends)
}

// The bond of a word as `0-1`, which is single, or `0=1`, which is double; atoms count from 0.
fn ends_in(word: &str) -> Ends {
    let (ends, order) = match word.split_once('=') {
        Some(ends) => (Some(ends), 2),
        None => (word.split_once('-'), 1),
    };
    let (a, b) = ends.unwrap_or(("", ""));
    (a.parse().unwrap_or(0), b.parse().unwrap_or(0), order)
}

fn bonds(alloc: Global, ends: &[Ends]) -> Result<Vec<Bond>, AllocError>
    requires { length ends.now ≤ 100 }
    ensures few { IfOk result (λ bonds. length bonds.items ≤ 100) }
    ensures each { IfOk result (λ bonds. All IsBond bonds.items) }
{
    ends.iter().map(|ends| bond(*ends)).collect(alloc)
}

fn bond(ends: Ends) -> Bond
    ensures { IsBond result }
{
    let (a, b, order) = ends;
    Bond {
        a,
        b,
        order: if order == 2 { 2 } else { 1 },
        mark: Mark::Plain,
    }
}

fn atoms(alloc: Global, symbols: &[u8]) -> Result<Vec<Atom>, AllocError>
    requires { length symbols.now ≤ 100 }
    ensures few { IfOk result (λ atoms. length atoms.items ≤ 100) }
    ensures each { IfOk result (λ atoms. All IsAtom atoms.items) }
{
    symbols.iter().map(|symbol| atom(*symbol)).collect(alloc)
}

// An atom by its symbol, chlorine by L; - is an oxygen with a negative charge.
fn atom(symbol: u8) -> Atom
    ensures { IsAtom result }
{
    Atom {
        z: match symbol {
            b'N' => 7,
            b'O' | b'-' => 8,
            b'S' => 16,
            b'L' => 17,
            _ => 6,
        },
        isotope: 0,
        charge: if symbol == b'-' { -1 } else { 0 },
        radical: 0,
        valence_mark: 0,
        at: Vec3 { x: 0, y: 0, z: 0 },
    }
}

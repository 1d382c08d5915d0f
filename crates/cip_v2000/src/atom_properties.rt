// What property lines state of atoms.
ghost use Rattle.std.specs.Prelude.{◌≡◌, All, fold, length, map, IfOk};
ghost use Rattle.cip_mol.specs.Ranges.{IsAtom};
ghost use Rattle.cip_v2000.specs.AtomLine.{IsAtomLine};
ghost use Rattle.cip_v2000.specs.Statements.{is_isotope, state_charges, state_isotopes, kept, with_statement, with_pair, settled, IsStatement, IsPair};

use crate::atoms::AtomLine;
use cip_mol::Atom;
use std::alloc::{AllocError, Global};

/// What is stated of an atom, as `Atom` has it.
#[derive(Clone, Copy)]
pub enum AtomProperty {
    Charge(i8),
    Radical(u8),
    Isotope(u16),
}

/// An atom by its place, and what is stated of it.
#[derive(Clone, Copy)]
pub struct Pair {
    pub atom: u32,
    pub states: AtomProperty,
}

/// The atoms of these lines with what the pairs state of them.
#[tactic(auto, unfolding(crate::specs::Statements::settled))]
pub fn apply_properties(
    alloc: Global,
    pairs: &[Pair],
    lines: &[AtomLine],
) -> Result<Vec<Atom>, AllocError>
    requires pairs { All IsPair pairs.now }
    requires lines { All IsAtomLine lines.now }
    ensures value { IfOk result (λ atoms. atoms.items ≡ settled pairs.now lines.now) }
    ensures range { IfOk result (λ atoms. All IsAtom atoms.items) }
    ensures counted { IfOk result (λ atoms. length atoms.items ≡ length lines.now) }
{
    match keep_all(alloc, state_charges(pairs), state_isotopes(pairs), lines) {
        Ok(atoms) => Ok(with_pairs(atoms, pairs)),
        Err(error) => Err(error),
    }
}

fn state_charges(pairs: &[Pair]) -> bool
    ensures { result ≡ state_charges pairs.now }
{
    for pair in pairs {
        if !is_isotope(pair.states) {
            return true;
        }
    }
    false
}

fn state_isotopes(pairs: &[Pair]) -> bool
    ensures { result ≡ state_isotopes pairs.now }
{
    for pair in pairs {
        if is_isotope(pair.states) {
            return true;
        }
    }
    false
}

fn is_isotope(states: AtomProperty) -> bool
    ensures { result ≡ is_isotope states }
{
    match states {
        AtomProperty::Charge(_) | AtomProperty::Radical(_) => false,
        AtomProperty::Isotope(_) => true,
    }
}

// What is kept of all lines where charges, and where isotopes, are stated.
fn keep_all(
    alloc: Global,
    charges: bool,
    isotopes: bool,
    lines: &[AtomLine],
) -> Result<Vec<Atom>, AllocError>
    requires { All IsAtomLine lines.now }
    ensures value { IfOk result (λ atoms. atoms.items ≡ map (kept charges isotopes) lines.now) }
    ensures range { IfOk result (λ atoms. All IsAtom atoms.items) }
    ensures counted { IfOk result (λ atoms. length atoms.items ≡ length lines.now) }
{
    let Ok(mut atoms) = Vec::with_capacity(alloc, lines.len()) else {
        return Err(AllocError);
    };
    for line in lines {
        atoms.push_reserved(keep(charges, isotopes, *line));
    }
    Ok(atoms)
}

fn keep(charges: bool, isotopes: bool, line: AtomLine) -> Atom
    requires { IsAtomLine line }
    ensures value { result ≡ kept charges isotopes line }
    ensures range { IsAtom result }
{
    let mut atom = line.atom;
    if charges {
        atom.charge = 0;
        atom.radical = 0;
    }
    if isotopes {
        atom.isotope = line.symbol_isotope;
    }
    atom
}

fn with_pairs(atoms: Vec<Atom>, pairs: &[Pair]) -> Vec<Atom>
    requires pairs { All IsPair pairs.now }
    requires atoms { All IsAtom atoms.items }
    ensures value { result.items ≡ fold with_pair atoms.items pairs.now }
    ensures range { All IsAtom result.items }
    ensures counted { length result.items ≡ length atoms.items }
{
    let mut atoms = atoms;
    for pair in pairs {
        state(&mut atoms, *pair);
    }
    atoms
}

// States a pair of its atom.
fn state(atoms: &mut Vec<Atom>, pair: Pair)
    requires pair { IsPair pair }
    requires atoms { All IsAtom atoms.old.items }
    ensures value { atoms.new.items ≡ with_pair atoms.old.items pair }
    ensures range { All IsAtom atoms.new.items }
    ensures counted { length atoms.new.items ≡ length atoms.old.items }
{
    let place = pair.atom as usize;
    if place < atoms.len() {
        atoms[place] = with_statement(atoms[place], pair.states);
    }
}

fn with_statement(atom: Atom, states: AtomProperty) -> Atom
    requires atom { IsAtom atom }
    requires states { IsStatement states }
    ensures value { result ≡ with_statement states atom }
    ensures range { IsAtom result }
{
    let mut atom = atom;
    match states {
        AtomProperty::Charge(charge) => atom.charge = charge,
        AtomProperty::Radical(radical) => atom.radical = radical,
        AtomProperty::Isotope(isotope) => atom.isotope = isotope,
    }
    atom
}

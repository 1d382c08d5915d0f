// Centres that are turned.
use crate::drawn::molfiles::read_v2000;
use cip_digraph::Units;
use cip_mol::{Geometry, Molecule, Sense, Unit};
use cip_molfile::Structure;
use gate_tables::{Row, Text};
use std::alloc::{AllocError, Global};

/// How many units of a record have the other sense if the centres at the atoms of a row, from 0, are turned.
pub fn inverted_told(alloc: Global, out: &mut Text, row: &Row, record: &[u8]) {
    match read_v2000(alloc, record) {
        Ok(molecule) => of_molecule(alloc, out, row, molecule),
        Err(_) => out.push_str("not read"),
    }
}

fn of_molecule(alloc: Global, out: &mut Text, row: &Row, molecule: Molecule) {
    let structure = Structure::of(alloc, molecule);
    match &structure {
        Ok(structure) => of_units(alloc, out, row, structure.units()),
        Err(_) => out.miss(),
    }
    // proof: dropped by a call, which is quicker to prove than the end of scope
    drop(structure);
}

fn of_units(alloc: Global, out: &mut Text, row: &Row, units: &Units) {
    let Ok(atoms) = atoms_in(alloc, row.field(3)) else {
        return out.miss();
    };
    let inverted = units.inverted(alloc, &atoms);
    match &inverted {
        Ok(inverted) => push_count(out, units.list(), inverted.list()),
        Err(_) => out.miss(),
    }
    drop(inverted);
}

fn atoms_in(alloc: Global, text: &str) -> Result<Vec<u32>, AllocError> {
    let mut atoms = Vec::new(alloc);
    for word in text.split_whitespace() {
        atoms.push(word.parse().unwrap_or(0))?;
    }
    Ok(atoms)
}

fn push_count(out: &mut Text, units: &[Unit], inverted: &[Unit]) {
    let mut turned = 0u32;
    for (unit, other) in units.iter().zip(inverted) {
        if are_opposite(unit.geometry, other.geometry) {
            turned = turned.saturating_add(1);
        }
    }
    write!(out, "{turned} of {} turned", inverted.len())
}

fn are_opposite(one: Geometry, other: Geometry) -> bool {
    matches!(
        (one, other),
        (Geometry::Known(Sense::Plus), Geometry::Known(Sense::Minus))
            | (Geometry::Known(Sense::Minus), Geometry::Known(Sense::Plus))
    )
}

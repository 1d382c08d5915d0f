// Molecules of carbon atoms and single bonds, which are checked.
ghost use Rattle.std.specs.Prelude.{◌≡◌, ◌<◌, ◌≤◌, All, IfOk, IfSome, length};
ghost use Rattle.cip_mol.specs.Ranges.{IsAtom};

use crate::drawings::{bonds, carbon};
use crate::output::text::Text;
use crate::rows::lists::{Line, lines};
use crate::rows::row::Row;
use cip_mol::{Atom, MolFault, Molecule};
use std::alloc::{AllocError, Global};

/// Why the molecule of a row is none; nothing where it is one.
pub fn fault(alloc: Global, out: &mut Text, row: &Row) {
    let mut drawn = Vec::new(alloc);
    if push_lines(alloc, &mut drawn, row).is_err() {
        return out.miss();
    }
    push_fault(alloc, out, row.number(2) as usize, &drawn)
}

// Adds the bonds of a row: n of the first atom, and those that are listed.
fn push_lines(alloc: Global, drawn: &mut Vec<Line>, row: &Row) -> Result<(), AllocError> {
    for other in 1..=row.number(3) {
        drawn.push((0, other, b'-'))?;
    }
    let listed = lines(alloc, row.field(4))?;
    drawn.extend_from_slice(&listed)
}

fn carbons(alloc: Global, count: usize) -> Result<Vec<Atom>, AllocError>
    requires { count ≤ 16384 }
    ensures count { IfOk result (λ atoms. length atoms.items ≡ count) }
    ensures each { IfOk result (λ atoms. All IsAtom atoms.items) }
{
    vec![in alloc; carbon((0, 0, 0)); count]
}

// Carbon atoms with these bonds.
fn molecule(
    alloc: Global,
    atoms: usize,
    drawn: &[Line],
) -> Result<Result<Molecule, MolFault>, AllocError>
    requires atoms { atoms ≤ 16384 }
    requires bonds { length drawn.now ≤ 32768 }
{
    let atoms = carbons(alloc, atoms)?;
    let bonds = bonds(alloc, drawn)?;
    Ok(Molecule::new(alloc, atoms, bonds))
}

// What is said of such a molecule: nothing where it is sound.
fn push_fault(alloc: Global, out: &mut Text, atoms: usize, drawn: &[Line]) {
    if atoms > 16_384 || drawn.len() > 32_768 {
        return out.push_str("out of range");
    }
    match molecule(alloc, atoms, drawn) {
        Ok(Ok(_)) => {}
        Ok(Err(fault)) => write!(out, "{fault}"),
        Err(_) => out.miss(),
    }
}

/// Of a molecule with as many atoms and bonds as are allowed, each atom joined to the next one and to one farther on:
/// how many bonds it has, whether it lies in the plane, and of one atom its neighbours and how many bonds. After them,
/// what is said of a want of memory.
pub fn lattice(alloc: Global, out: &mut Text) {
    let Ok(drawn) = lattice_lines(alloc) else {
        return out.miss();
    };
    if drawn.len() > 32_768 {
        return out.push_str("out of range");
    }
    let Ok(lattice) = molecule(alloc, 16_384, &drawn) else {
        return out.miss();
    };
    push_lattice(out, &lattice)
}

fn push_lattice(out: &mut Text, lattice: &Result<Molecule, MolFault>) {
    let Ok(lattice) = lattice else {
        return out.push_str("no molecule");
    };
    if lattice.atoms().len() <= 200 {
        return out.push_str("few atoms");
    }
    push_counts(out, lattice);
    push_at_200(out, lattice);
    write!(out, " {}", MolFault::Memory)
}

fn push_counts(out: &mut Text, lattice: &Molecule) {
    let bonds = lattice.bonds().len();
    let plane = !lattice.is_spatial();
    write!(out, "{bonds} {plane}")
}

fn push_at_200(out: &mut Text, lattice: &Molecule)
    requires { 200 < length lattice.now.atoms }
{
    let neighbours = lattice.neighbours(200);
    let bonds = lattice.bonds_at(200).len();
    write!(out, " {neighbours:?} {bonds}")
}

fn lattice_lines(alloc: Global) -> Result<Vec<Line>, AllocError> {
    let mut drawn = Vec::new(alloc);
    for atom in 0..16_384u32 {
        drawn.push((atom, (atom + 1) % 16_384, b'-'))?;
        drawn.push((atom, (atom + 128) % 16_384, b'-'))?;
    }
    Ok(drawn)
}

/// The neighbours of an atom in a row of three that is renumbered once, and of one where it is renumbered twice and
/// mirrored twice.
pub fn renumbered(alloc: Global, out: &mut Text) {
    match row_of_three(alloc) {
        Ok(Some(row)) => push_renumbered(alloc, out, &row),
        Ok(None) => out.push_str("no molecule"),
        Err(_) => out.miss(),
    }
}

fn push_renumbered(alloc: Global, out: &mut Text, row: &Molecule)
    requires atoms { length row.now.atoms ≡ 3 }
    requires bonds { length row.now.bonds ≡ 2 }
{
    let Ok(once) = one_on(alloc, row) else {
        return out.miss();
    };
    push_neighbours(out, &once, 0);
    out.push_str(" ");
    push_again(alloc, out, &once)
}

fn push_again(alloc: Global, out: &mut Text, once: &Molecule)
    requires atoms { length once.now.atoms ≡ 3 }
    requires bonds { length once.now.bonds ≡ 2 }
{
    let Ok(again) = one_on(alloc, once) else {
        return out.miss();
    };
    let Ok(again) = mirrored_twice(alloc, &again) else {
        return out.miss();
    };
    push_neighbours(out, &again, 1)
}

fn mirrored_twice(alloc: Global, molecule: &Molecule) -> Result<Molecule, AllocError> {
    let mirrored = molecule.mirror(alloc)?;
    mirrored.mirror(alloc)
}

fn push_neighbours(out: &mut Text, molecule: &Molecule, atom: u32) {
    if molecule.atoms().len() <= atom as usize {
        return out.push_str("few atoms");
    }
    let neighbours = molecule.neighbours(atom);
    write!(out, "{neighbours:?}")
}

// Three atoms in a row, the middle one last.
fn row_of_three(alloc: Global) -> Result<Option<Molecule>, AllocError>
    ensures atoms { IfOk result (λ row. IfSome row (λ molecule. length molecule.atoms ≡ 3)) }
    ensures bonds { IfOk result (λ row. IfSome row (λ molecule. length molecule.bonds ≡ 2)) }
{
    let atoms = carbons(alloc, 3)?;
    let bonds = bonds(alloc, &[(0, 2, b'-'), (1, 2, b'-')])?;
    match Molecule::new(alloc, atoms, bonds) {
        Ok(molecule) => Ok(Some(molecule)),
        Err(_) => Ok(None),
    }
}

// Each atom one place on, the last one in front, and the two bonds in each other's place.
fn one_on(alloc: Global, molecule: &Molecule) -> Result<Molecule, AllocError>
    requires atoms { length molecule.now.atoms ≡ 3 }
    requires bonds { length molecule.now.bonds ≡ 2 }
    ensures atoms { IfOk result (λ next. length next.atoms ≡ 3) }
    ensures bonds { IfOk result (λ next. length next.bonds ≡ 2) }
{
    molecule.renumber(alloc, &[1, 2, 0], &[1, 0])
}

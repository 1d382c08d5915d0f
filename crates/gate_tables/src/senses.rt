// What drawings of centres, bonds and axes show.
ghost use Rattle.std.specs.Prelude.{◌<◌, ◌≤◌, All, IfOk, IfSome, length};
ghost use Rattle.cip_mol.specs.DrawnLigands.{drawn};
ghost use Rattle.cip_mol.specs.Ranges.{IsAtom};
ghost use Rattle.cip_mol.specs.Sites.{IsSite};

use crate::drawings::{bonds, carbon};
use crate::output::text::Text;
use crate::rows::lists::{Line, Point, lines, numbers, points};
use crate::rows::row::Row;
use cip_mol::{Atom, Cause, Geometry, Ligand, Ligands, Molecule, Sense, Site};
use cip_orient::{drawn_atoms, orient};
use std::alloc::{AllocError, Global};

/// What the drawing of a row shows.
pub fn sense(alloc: Global, out: &mut Text, row: &Row) {
    match drawing(alloc, row) {
        Ok(Some(molecule)) => push_sense(alloc, out, row, &molecule),
        Ok(None) => out.push_str("no molecule"),
        Err(_) => out.miss(),
    }
}

fn drawing(alloc: Global, row: &Row) -> Result<Option<Molecule>, AllocError> {
    let points = points(alloc, row.field(5))?;
    let lines = lines(alloc, row.field(6))?;
    molecule(alloc, &points, &lines)
}

fn push_sense(alloc: Global, out: &mut Text, row: &Row, molecule: &Molecule) {
    let Ok(firsts) = numbers(alloc, row.field(3)) else {
        return out.miss();
    };
    let Ok(seconds) = numbers(alloc, row.field(4)) else {
        return out.miss();
    };
    let site = site(alloc, molecule, row.field(2), &firsts, &seconds);
    out.push_str(shown(alloc, molecule, &site))
}

fn shown(alloc: Global, molecule: &Molecule, site: &Option<Site>) -> &'static str
    requires { IfSome site.now (IsSite (length molecule.now.atoms)) }
{
    match site {
        Some(site) => name_of(orient(alloc, molecule, site)),
        None => "no site",
    }
}

fn atoms(alloc: Global, points: &[Point]) -> Result<Vec<Atom>, AllocError>
    ensures many { IfOk result (λ atoms. length atoms.items ≤ length points.now) }
    ensures each { IfOk result (λ atoms. All IsAtom atoms.items) }
{
    points.iter().map(|point| carbon(*point)).collect(alloc)
}

fn molecule(
    alloc: Global,
    points: &[Point],
    lines: &[Line],
) -> Result<Option<Molecule>, AllocError> {
    if points.len() > 16 || lines.len() > 16 {
        return Ok(None);
    }
    let atoms = atoms(alloc, points)?;
    let bonds = bonds(alloc, lines)?;
    Ok(Molecule::new(alloc, atoms, bonds).ok())
}

// These atoms, and a lone pair after them where there is room.
fn ligands(alloc: Global, numbers: &[u32]) -> Ligands {
    let mut ligands = Ligands::new(alloc);
    for number in numbers {
        if ligands.len() < 4 {
            ligands.push(Ligand::Vertex(*number));
        }
    }
    if ligands.len() < 4 {
        ligands.push(Ligand::LonePair);
    }
    ligands
}

// The ligands of an atom, where n of them are drawn.
fn ligands_at(
    alloc: Global,
    molecule: &Molecule,
    at: u32,
    numbers: &[u32],
    least: u32,
) -> Option<Ligands>
    ensures atom { IfSome result (λ _. at < length molecule.now.atoms) }
    ensures drawn { IfSome result (λ ligands. least ≤ length (drawn (length molecule.now.atoms) ligands)) }
{
    let ligands = ligands(alloc, numbers);
    if molecule.atoms().len() <= at as usize || drawn_atoms(molecule, &ligands).len() < least {
        return None;
    }
    Some(ligands)
}

// The site of a kind, with its ligands at its first end and at its last one.
fn site(
    alloc: Global,
    molecule: &Molecule,
    kind: &str,
    firsts: &[u32],
    seconds: &[u32],
) -> Option<Site>
    ensures { IfSome result (IsSite (length molecule.now.atoms)) }
{
    match kind.as_bytes() {
        [b'c', ..] => centre(alloc, molecule, firsts),
        [b'b', ..] => bond_site(alloc, molecule, firsts, seconds),
        _ => axis(alloc, molecule, firsts, seconds),
    }
}

fn centre(alloc: Global, molecule: &Molecule, numbers: &[u32]) -> Option<Site>
    ensures { IfSome result (IsSite (length molecule.now.atoms)) }
{
    let at = 0;
    let ligands = ligands_at(alloc, molecule, at, numbers, 3)?;
    Some(Site::Centre { at, ligands })
}

fn bond_site(alloc: Global, molecule: &Molecule, firsts: &[u32], seconds: &[u32]) -> Option<Site>
    ensures { IfSome result (IsSite (length molecule.now.atoms)) }
{
    let (a, b) = (0, 1);
    let first = ligands_at(alloc, molecule, a, firsts, 1)?;
    let second = ligands_at(alloc, molecule, b, seconds, 1)?;
    Some(Site::Bond {
        a,
        b,
        first,
        second,
    })
}

fn axis(alloc: Global, molecule: &Molecule, firsts: &[u32], seconds: &[u32]) -> Option<Site>
    ensures { IfSome result (IsSite (length molecule.now.atoms)) }
{
    let (a, middle, b) = (0, 1, 2);
    let first = ligands_at(alloc, molecule, a, firsts, 1)?;
    let second = ligands_at(alloc, molecule, b, seconds, 1)?;
    Some(Site::Axis {
        a,
        middle,
        b,
        first,
        second,
    })
}

fn name_of(geometry: Geometry) -> &'static str {
    match geometry {
        Geometry::Known(Sense::Plus) => "Plus",
        Geometry::Known(Sense::Minus) => "Minus",
        Geometry::Unknown(Cause::Either) => "Either",
        Geometry::Unknown(Cause::Coincident) => "Coincident",
        Geometry::Unknown(Cause::Contradictory) => "Contradictory",
        Geometry::Unknown(Cause::Reentrant) => "Reentrant",
        Geometry::Unknown(Cause::NoMark) => "NoMark",
    }
}

// The stereogenic units of a molecule.
ghost use Rattle.std.specs.Prelude.{◌≡◌, ◌++◌, ◌∷◌, [], IfOk, OnOk, OnErr};
ghost use Rattle.cip_digraph.specs.units.Descriptors.{opposite};
ghost use Rattle.cip_digraph.specs.units.Inverted.{inverted, inverted_unit, is_centre_among, turned_geometry};

use cip_mol::{Geometry, Sense, Site, Unit};
use std::alloc::{AllocError, Global};
use std::marker::Model;

/// Units with what a drawing shows of each, in the order in which they were added. Contracts see the list of them.
#[derive(Drop)]
pub struct Units {
    units: Vec<Unit>,
}

impl Model for Units {
    ghost use Rattle.std.specs.Prelude.{List};
    ghost use Rattle.cip_mol.specs.declared.site.Unit.{Unit};

    ghost Value = { List Unit };

    ghost view = { λ u. u.units.items };
}

impl Units {
    /// No unit. It takes no memory.
    pub fn new(alloc: Global) -> Units
        ensures { result ≡ [] }
    {
        Units {
            units: Vec::new(alloc),
        }
    }

    /// Adds a unit at the end. A refusal leaves them as they were.
    pub fn push(&mut self, unit: Unit) -> Result<(), AllocError>
        ensures added { OnOk result (self.new ≡ self.old ++ unit ∷ []) }
        ensures refused { OnErr result (self.new ≡ self.old) }
    {
        self.units.push(unit)?;
        Ok(())
    }

    /// The units in their order.
    pub fn list(&self) -> &[Unit]
        ensures { result.now ≡ self.now }
    {
        &self.units
    }

    /// The same units once more.
    pub fn copy(&self, alloc: Global) -> Result<Units, AllocError>
        ensures { IfOk result (λ units. units ≡ self.now) }
    {
        let mut copy = Units::new(alloc);
        for unit in self.list() {
            let site = unit.site.copy();
            let geometry = unit.geometry;
            let Ok(()) = copy.push(Unit { site, geometry }) else {
                return Err(AllocError);
            };
        }
        Ok(copy)
    }

    /// The units with the centres at these atoms turned: what is known of each is the other sense.
    pub fn inverted(&self, alloc: Global, atoms: &[u32]) -> Result<Units, AllocError>
        ensures { IfOk result (λ units. units ≡ inverted atoms.now self.now) }
    {
        match self.copy(alloc) {
            Ok(mut units) => {
                units.invert(atoms);
                Ok(units)
            }
            Err(fault) => Err(fault),
        }
    }

    /// Turns the centres at these atoms. A second call turns them back.
    pub fn invert(&mut self, atoms: &[u32])
        ensures { self.new ≡ inverted atoms.now self.old }
    {
        invert_all(&mut self.units, atoms);
    }
}

// Inverts the centres at these atoms, in place.
fn invert_all(units: &mut [Unit], atoms: &[u32])
    ensures { units.new ≡ inverted atoms.now units.old }
{
    for unit in units.iter_mut() {
        invert_unit(unit, atoms);
    }
}

// Inverts a unit, if it is a centre at one of these atoms.
fn invert_unit(unit: &mut Unit, atoms: &[u32])
    ensures { unit.new ≡ inverted_unit atoms.now unit.old }
{
    if is_centre_among(atoms, &unit.site) {
        unit.geometry = turned(unit.geometry);
    }
}

// Whether a site is a centre at one of these atoms.
fn is_centre_among(atoms: &[u32], site: &Site) -> bool
    ensures { result ≡ is_centre_among atoms.now site.now }
{
    match site {
        Site::Centre { at, .. } => atoms.contains(at),
        Site::Bond { .. } | Site::Axis { .. } => false,
    }
}

// The geometry with the other sense; an unknown one stays.
fn turned(geometry: Geometry) -> Geometry
    ensures { result ≡ turned_geometry geometry }
{
    match geometry {
        Geometry::Known(sense) => Geometry::Known(opposite(sense)),
        Geometry::Unknown(cause) => Geometry::Unknown(cause),
    }
}

// The other sense.
fn opposite(sense: Sense) -> Sense
    ensures { result ≡ opposite sense }
{
    match sense {
        Sense::Plus => Sense::Minus,
        Sense::Minus => Sense::Plus,
    }
}

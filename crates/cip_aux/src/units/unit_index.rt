// The units of a record by the vertices at which they end.
ghost use Rattle.std.specs.Prelude.{◌≡◌, ◌<◌, ◌==◌, ◌++◌, ◌∷◌, ℕ, [], IfOk, OnOk, length};
ghost use Rattle.cip_aux.specs.UnitIndex.{ArePlaces, AreRows, AreAdded, ends_at, ends_at_site, row, unit_at, with_last};

use cip_mol::{Geometry, Site, Unit};
use std::alloc::{AllocError, Global};
use std::marker::Model;

// The places of units by vertex. Contracts see the list of the rows.
#[derive(Drop)]
struct Rows {
    rows: Vec<Vec<usize>>,
}

impl Model for Rows {
    ghost use Rattle.std.specs.Prelude.{ℕ, List, map};

    ghost Value = { List (List ℕ) };

    ghost view = { λ table. map (λ row. row.items) table.rows.items };
}

impl Rows {
    // There are none at a number beyond the table.
    fn of(&self, vertex: u32) -> &[usize]
        ensures { result.now ≡ row self.now vertex }
    {
        match self.rows.get(vertex as usize) {
            Some(row) => row.as_slice(),
            None => &[],
        }
    }

    fn len(&self) -> usize
        ensures { result ≡ length self.now }
    {
        self.rows.len()
    }

    // Adds a row without units, for the next vertex.
    fn push_empty(&mut self) -> Result<(), AllocError>
        ensures { OnOk result (self.new ≡ self.old ++ [] ∷ []) }
    {
        let row = Vec::new(*self.rows.allocator());
        self.rows.push(row)?;
        Ok(())
    }

    // Puts empty rows at the end until a vertex has one.
    fn reach(&mut self, vertex: u32) -> Result<(), AllocError>
        ensures reached { OnOk result (vertex < length self.new) }
        ensures same { OnOk result ((other : ℕ) → row self.new other ≡ row self.old other) }
    {
        while self.len() <= vertex as usize {
            let Ok(()) = self.push_empty() else {
                return Err(AllocError);
            };
        }
        Ok(())
    }

    // Adds the place of a unit to the row of a vertex.
    fn push(&mut self, vertex: u32, place: usize) -> Result<(), AllocError>
        requires { vertex < length self.old }
        ensures { OnOk result (self.new ≡ with_last vertex place self.old) }
    {
        let Ok(()) = self.rows[vertex as usize].push(place) else {
            return Err(AllocError);
        };
        Ok(())
    }

    // Adds a place at a vertex.
    fn add(&mut self, vertex: u32, place: usize) -> Result<(), AllocError>
        ensures { OnOk result (AreAdded (λ other. vertex == other) place self.old self.new) }
    {
        let Ok(()) = self.reach(vertex) else {
            return Err(AllocError);
        };
        self.push(vertex, place)
    }
}

// Adds the place of a unit at each vertex where its site ends.
fn add_site(rows: &mut Rows, site: &Site, place: usize) -> Result<(), AllocError>
    ensures { OnOk result (AreAdded (λ vertex. ends_at_site vertex site.now) place rows.old rows.new) }
{
    match site {
        Site::Centre { at, .. } => rows.add(*at, place),
        Site::Bond { a, b, .. } | Site::Axis { a, b, .. } => {
            let Ok(()) = rows.add(*a, place) else {
                return Err(AllocError);
            };
            if a == b { Ok(()) } else { rows.add(*b, place) }
        }
    }
}

// Adds a unit of known sense.
fn add_unit(rows: &mut Rows, unit: &Unit, place: usize) -> Result<(), AllocError>
    ensures { OnOk result (AreAdded (λ vertex. ends_at vertex unit.now) place rows.old rows.new) }
{
    match unit.geometry {
        Geometry::Known(_) => add_site(rows, &unit.site, place),
        Geometry::Unknown(_) => Ok(()),
    }
}

/// The units of a record, and by vertex the places of those of known geometry that end there.
#[derive(Drop)]
pub struct UnitIndex<'a> {
    units: &'a [Unit],
    rows: Rows,
}

impl<'a> Model for UnitIndex<'a> {
    ghost use Rattle.std.specs.Prelude.{List};
    ghost use Rattle.cip_mol.specs.declared.site.Unit.{Unit as AnyUnit};
    ghost use Rattle.cip_aux.specs.UnitIndex.{AreRows};

    ghost Value = { List AnyUnit };

    ghost view = { λ at. at.units.now };

    ghost invariant = { λ at. AreRows at.units.now at.units.now at.rows };
}

impl<'a> UnitIndex<'a> {
    /// These units by their ends.
    pub fn new(alloc: Global, units: &'a [Unit]) -> Result<UnitIndex<'a>, AllocError>
        ensures { IfOk result (λ at. at ≡ units.now) }
    {
        let mut rows = Rows {
            rows: Vec::new(alloc),
        };
        for (place, unit) in units.iter().enumerate() {
            let Ok(()) = add_unit(&mut rows, unit, place) else {
                return Err(AllocError);
            };
        }
        Ok(UnitIndex { units, rows })
    }

    /// The places of the units of known geometry that end at a vertex, in order.
    pub fn of(&self, vertex: u32) -> &[usize]
        ensures { ArePlaces self.now self.now vertex result.now }
    {
        self.rows.of(vertex)
    }

    /// The unit at a place.
    pub fn unit(&self, place: usize) -> &Unit
        requires { place < length self.now }
        ensures { result.now ≡ unit_at self.now place }
    {
        let units = self.units;
        &units[place]
    }
}

// The atoms of units, flagged by vertex.
ghost use Rattle.std.specs.Prelude.{◌≡◌, ◌<◌, ◌≤◌, ◌==◌, ◌++◌, ◌∷◌, [], ℕ, false, IfOk, length, replicate, flat_map};
ghost use Rattle.std.specs.Prelude.{vec_capacity};
ghost use Rattle.std.specs.List.{list_any};
ghost use Rattle.cip_digraph.specs.rings.Alternating.{is_in};
ghost use Rattle.cip_digraph.specs.units.Ends.{atoms_of};
ghost use Rattle.cip_digraph.specs.UnitFlags.{with_flag, with_flags};

use cip_mol::{Site, Unit};
use std::alloc::{AllocError, Global};
use std::marker::Model;

/// The units of a record, and of each vertex whether it is an atom of one.
#[derive(Drop)]
pub struct FlaggedUnits<'a> {
    units: &'a [Unit],
    flags: Vec<bool>,
}

impl<'a> Model for FlaggedUnits<'a> {
    ghost use Rattle.std.specs.Prelude.{List};
    ghost use Rattle.cip_mol.specs.declared.site.Unit.{Unit as AnyUnit};

    ghost Value = { List AnyUnit };

    ghost view = { λ flagged. flagged.units.now };

    ghost use Rattle.cip_digraph.specs.UnitFlags.{HoldUnitFlags};

    ghost invariant = { HoldUnitFlags };
}

impl<'a> FlaggedUnits<'a> {
    /// Flags the atoms of units among n vertices.
    pub fn of(alloc: Global, units: &'a [Unit], count: u32) -> Result<FlaggedUnits<'a>, AllocError>
        ensures { IfOk result (λ flagged. flagged ≡ units.now) }
    {
        let Ok(mut flags) = Vec::with_capacity(alloc, count as usize) else {
            return Err(AllocError);
        };
        clear_flags(&mut flags, count);
        flag_units(units, &mut flags);
        Ok(FlaggedUnits { units, flags })
    }

    /// The units in their order.
    pub fn as_slice(&self) -> &'a [Unit]
        ensures { result.now ≡ self.now }
    {
        self.units
    }

    /// Whether a vertex is an atom of some unit.
    pub fn has(&self, vertex: u32) -> bool
        ensures { result ≡ is_in vertex (flat_map (λ unit. atoms_of unit.site) self.now) }
    {
        if (vertex as usize) < self.flags.len() {
            self.flags[vertex as usize]
        } else {
            is_of_any(self.units, vertex)
        }
    }
}

// Refills a column with n flags that aren't set.
fn clear_flags(flags: &mut Vec<bool>, count: u32)
    requires { count ≤ vec_capacity flags.old }
    ensures { flags.new.items ≡ replicate count false }
{
    flags.clear();
    for _ in 0..count {
        flags.push_reserved(false);
    }
}

// Sets the flag of a vertex, if there is one.
fn flag_vertex(vertex: u32, flags: &mut Vec<bool>)
    ensures { flags.new.items ≡ with_flag vertex flags.old.items }
{
    if (vertex as usize) < flags.len() {
        flags[vertex as usize] = true;
    }
}

// Sets the flags of the atoms of a site.
fn flag_site(site: &Site, flags: &mut Vec<bool>)
    ensures { flags.new.items ≡ with_flags (atoms_of site.now) flags.old.items }
{
    match site {
        Site::Centre { at, .. } => flag_vertex(*at, flags),
        Site::Bond { a, b, .. } => {
            flag_vertex(*a, flags);
            flag_vertex(*b, flags);
        }
        Site::Axis { a, middle, b, .. } => {
            flag_vertex(*a, flags);
            flag_vertex(*b, flags);
            flag_vertex(*middle, flags);
        }
    }
}

// Flags the atoms of one unit after the other.
fn flag_units(units: &[Unit], flags: &mut Vec<bool>)
    ensures { flags.new.items ≡ with_flags (flat_map (λ unit. atoms_of unit.site) units.now) flags.old.items }
{
    for unit in units {
        flag_site(&unit.site, flags);
    }
}

// Whether a vertex is an atom of a site: an end or the middle.
fn is_atom_of(site: &Site, vertex: u32) -> bool
    ensures { result ≡ is_in vertex (atoms_of site.now) }
{
    match site {
        Site::Centre { at, .. } => *at == vertex,
        Site::Bond { a, b, .. } => *a == vertex || *b == vertex,
        Site::Axis { a, middle, b, .. } => *a == vertex || *b == vertex || *middle == vertex,
    }
}

// Whether a vertex is an atom of some unit.
fn is_of_any(units: &[Unit], vertex: u32) -> bool
    ensures { result ≡ list_any (λ unit. is_in vertex (atoms_of unit.site)) units.now }
{
    for unit in units {
        if is_atom_of(&unit.site, vertex) {
            return true;
        }
    }
    false
}

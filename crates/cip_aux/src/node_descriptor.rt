// The descriptor at a node: that of the first unit that has one there.
ghost use Rattle.std.specs.Prelude.{◌≡◌, ◌<◌, None, Some, false, IfOk, IfSome, length, slice_set};
ghost use Rattle.cip_mol.specs.Ends.{between_of};
ghost use Rattle.cip_digraph.specs.digraph.Telling.{node_at};
ghost use Rattle.cip_digraph.specs.rules.Auxiliary.{nearer_first};
ghost use Rattle.cip_digraph.specs.units.Ends.{ends_of};
ghost use Rattle.cip_aux.specs.InnerContext.{Ready};
ghost use Rattle.cip_aux.specs.ParityCache.{AreKept, sites_in};
ghost use Rattle.cip_aux.specs.DescriptorsInside.{AreEndTurns, IsUnitLetter, IsFirstLetter, UnitsJoin};
ghost use Rattle.cip_aux.specs.Joining.{EndsJoin};
ghost use Rattle.cip_aux.specs.UnitIndex.{unit_at};

use crate::context::InnerContext;
use crate::ligand_ranker::LigandRanker;
use crate::parities::parity_cache::{CachedParity, ParityCache};
use crate::units::unit_ends::unit_parity;
use crate::units::unit_index::UnitIndex;
use cip_digraph::{Nodes, Parity, descriptor_if_ranked};
use cip_mol::{Descriptor, Geometry};
use std::alloc::{AllocError, Global};

// A unit by its place in the record's units, at a vertex where it ends.
#[derive(Clone, Copy)]
struct UnitHere<'a> {
    units: &'a UnitIndex<'a>,
    place: usize,
    vertex: u32,
}

// Keeps the turns of a unit at a node.
fn keep(kept: &mut ParityCache, node: u32, place: usize, parities: Option<Parity>)
    ensures none { parities ≡ None → kept.new ≡ kept.old }
    ensures some { IfSome parities (λ found. kept.new ≡ record kept.old {
      items = slice_set kept.old.items node (Some (record { place = place; parities = found }));
    }) }
{
    if let Some(parities) = parities {
        kept.put(node, CachedParity { place, parities });
    }
}

// The turns of a unit at the node: those that are kept, or else as they are seen. What constitution decided is kept.
fn turns_here<N: Nodes, V: LigandRanker>(
    alloc: Global,
    inner: &InnerContext<'_, N>,
    viewer: &mut V,
    here: &UnitHere<'_>,
    kept: &mut ParityCache,
) -> Result<Option<Parity>, AllocError>
    requires ready { Ready inner.now inner.now.from }
    requires vertex { here.now.vertex ≡ (node_at inner.now.sight.nodes inner.now.from).vertex }
    requires low { here.now.place < length here.now.units.now }
    requires joined { EndsJoin inner.now.sight.graph (unit_at here.now.units.now here.now.place).site }
    requires stands { V.stands viewer.old inner.now.sight }
    requires kept { AreKept inner.now.sight (sites_in here.now.units.now) kept.old.items }
    ensures room { V.room viewer.new ≡ V.room viewer.old }
    ensures stands { V.stands viewer.new inner.now.sight }
    ensures kept { AreKept inner.now.sight (sites_in here.now.units.now) kept.new.items }
    ensures kept_room { kept.new.room ≡ kept.old.room }
    ensures parities { IfOk result (AreEndTurns inner.now inner.now.from false
        (between_of (unit_at here.now.units.now here.now.place).site)
        (nearer_first here.now.vertex (ends_of (unit_at here.now.units.now here.now.place).site))) }
{
    match kept.of(inner.from(), here.place) {
        Some(turn) => Ok(Some(turn.parities)),
        None => {
            let ends = here.units.unit(here.place).site.ends();
            let Ok(found) = unit_parity(alloc, inner, viewer, here.vertex, &ends) else {
                return Err(AllocError);
            };
            if found.by_constitution {
                keep(kept, inner.from(), here.place, found.parities);
            }
            Ok(found.parities)
        }
    }
}

// The descriptor of the unit that ends at a node; none if its sense is unknown or two ligands tie.
fn unit_letter<N: Nodes, V: LigandRanker>(
    alloc: Global,
    inner: &InnerContext<'_, N>,
    viewer: &mut V,
    here: &UnitHere<'_>,
    kept: &mut ParityCache,
) -> Result<Option<Descriptor>, AllocError>
    requires ready { Ready inner.now inner.now.from }
    requires vertex { here.now.vertex ≡ (node_at inner.now.sight.nodes inner.now.from).vertex }
    requires low { here.now.place < length here.now.units.now }
    requires joined { EndsJoin inner.now.sight.graph (unit_at here.now.units.now here.now.place).site }
    requires stands { V.stands viewer.old inner.now.sight }
    requires kept { AreKept inner.now.sight (sites_in here.now.units.now) kept.old.items }
    ensures room { V.room viewer.new ≡ V.room viewer.old }
    ensures stands { V.stands viewer.new inner.now.sight }
    ensures kept { AreKept inner.now.sight (sites_in here.now.units.now) kept.new.items }
    ensures kept_room { kept.new.room ≡ kept.old.room }
    ensures letter { IfOk result (IsUnitLetter inner.now inner.now.from
        (unit_at here.now.units.now here.now.place)) }
{
    let unit = here.units.unit(here.place);
    match unit.geometry {
        Geometry::Unknown(_) => Ok(None),
        Geometry::Known(sense) => {
            let Ok(parities) = turns_here(alloc, inner, viewer, here, kept) else {
                return Err(AllocError);
            };
            Ok(descriptor_if_ranked(&unit.site.ends(), sense, parities))
        }
    }
}

/// The descriptor at a real node, whose vertex this is, by those that are strictly inside its subtree. Only units
/// that end at the vertex are looked at, unless their turns are kept.
pub fn node_descriptor<N: Nodes, V: LigandRanker>(
    alloc: Global,
    inner: &InnerContext<'_, N>,
    viewer: &mut V,
    vertex: u32,
    units: &UnitIndex<'_>,
    kept: &mut ParityCache,
) -> Result<Option<Descriptor>, AllocError>
    requires ready { Ready inner.now inner.now.from }
    requires vertex { vertex ≡ (node_at inner.now.sight.nodes inner.now.from).vertex }
    requires joined { UnitsJoin inner.now.sight units.now }
    requires stands { V.stands viewer.old inner.now.sight }
    requires kept { AreKept inner.now.sight (sites_in units.now) kept.old.items }
    ensures room { V.room viewer.new ≡ V.room viewer.old }
    ensures stands { V.stands viewer.new inner.now.sight }
    ensures kept { AreKept inner.now.sight (sites_in units.now) kept.new.items }
    ensures kept_room { kept.new.room ≡ kept.old.room }
    ensures letter { IfOk result (IsFirstLetter inner.now inner.now.from units.now) }
{
    let mut rest = units.of(vertex);
    while let [place, others @ ..] = rest {
        let here = UnitHere {
            units: &*units,
            place: *place,
            vertex,
        };
        match unit_letter(alloc, inner, viewer, &here, kept) {
            Ok(None) => rest = others,
            Ok(Some(letter)) => return Ok(Some(letter)),
            Err(error) => return Err(error),
        }
    }
    Ok(None)
}

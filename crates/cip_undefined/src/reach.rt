// What branches hold.
ghost use Rattle.std.specs.Prelude.{◌≡◌, ◌≤◌, ◌∷◌, [], IfOk, OnOk, drop};
ghost use Rattle.std.specs.List.{flat_map, list_any};
ghost use Rattle.cip_digraph.specs.rings.Alternating.{is_in};
ghost use Rattle.cip_digraph.specs.rings.SmallRings.{with_new};
ghost use Rattle.cip_undefined.specs.Branches.{beyond, do_hold, ends_at, free_atoms, holds, is_free};

use crate::pairs::Pair;
use cip_digraph::Graph;
use cip_mol::{Ligand, Site};
use cip_ring::{Neighbours, VertexSet, reach_within};
use std::alloc::{AllocError, Global};
use std::marker::Model;

// Steps along all bonds but those to the root.
#[derive(Drop)]
struct Beyond<'a> {
    graph: &'a Graph,
    root: u32,
}

impl<'a> Neighbours for Beyond<'a> {
    ghost step = { λ s. beyond s.graph.now s.root };

    fn add_steps(&self, from: u32, reached: &mut VertexSet) -> Result<(), AllocError> {
        add_beyond(self.graph, self.root, from, reached)
    }
}

// Adds the neighbours of a vertex that aren't the root.
fn add_beyond(
    graph: &Graph,
    root: u32,
    vertex: u32,
    reached: &mut VertexSet,
) -> Result<(), AllocError>
    ensures { OnOk result (reached.new ≡ with_new reached.old (beyond graph.now root vertex)) }
{
    for edge in graph.edges_at(vertex) {
        let other = edge.other_end(vertex);
        reached.insert_if(other != root, other)?;
    }
    Ok(())
}

/// The atoms at which some sites end, asked for in branches of one graph. Contracts see the list of them.
#[derive(Drop)]
pub(crate) struct FreeAtoms<'a> {
    graph: &'a Graph,
    free: VertexSet,
    reached: VertexSet,
}

impl<'a> Model for FreeAtoms<'a> {
    ghost use Rattle.cip_undefined.specs.Branches as branches;

    ghost Value = { branches.FreeAtoms };

    ghost view = { λ atoms. record { graph = atoms.graph.now; free = atoms.free } };
}

impl<'a> FreeAtoms<'a> {
    /// No atom of a graph.
    pub(crate) fn new(alloc: Global, graph: &'a Graph) -> Result<FreeAtoms<'a>, AllocError>
        ensures { IfOk result (λ atoms. atoms ≡ record { graph = graph.now; free = [] }) }
    {
        let count = graph.vertices().len();
        Ok(FreeAtoms {
            graph,
            free: VertexSet::new(alloc, count)?,
            reached: VertexSet::new(alloc, count)?,
        })
    }

    /// Takes these atoms and those at which sites end in place of what was held.
    pub(crate) fn fill(&mut self, others: &[u32], sites: &[Site]) -> Result<(), AllocError>
        ensures { OnOk result (self.new ≡ record self.old { free = free_atoms others.now sites.now }) }
    {
        self.free.clear();
        add_all(&mut self.free, others)?;
        add_sites(&mut self.free, sites)
    }

    /// Whether one of two branches holds one of the atoms, which is no end of the site itself.
    pub(crate) fn are_held(&mut self, site: &Site, pair: &Pair) -> Result<bool, AllocError>
        ensures held { IfOk result (λ held. held ≡ do_hold self.old.graph self.old.free site.now pair.now) }
        ensures kept { self.new ≡ self.old }
    {
        let one = self.is_held(site, pair.at, pair.one)?;
        let other = self.is_held(site, pair.at, pair.other)?;
        Ok(one || other)
    }

    fn is_held(&mut self, site: &Site, root: u32, ligand: Ligand) -> Result<bool, AllocError>
        ensures held { IfOk result (λ held. held ≡ holds self.old.graph self.old.free site.now root ligand) }
        ensures kept { self.new ≡ self.old }
    {
        match ligand {
            Ligand::LonePair => Ok(false),
            Ligand::Vertex(vertex) => {
                let graph = self.graph;
                let most = graph.vertices().len() as u32;
                reach_within(&Beyond { graph, root }, vertex, most, &mut self.reached)?;
                Ok(has_free(&self.free, site, &self.reached))
            }
        }
    }
}

// Whether one of those that were reached is free.
fn has_free(free: &VertexSet, site: &Site, reached: &VertexSet) -> bool
    ensures { result ≡ list_any (is_free free.now site.now) reached.now }
{
    for place in 0..reached.len() {
        if is_free(free, site, reached.get(place)) {
            return true;
        }
    }
    false
}

fn is_free(free: &VertexSet, site: &Site, vertex: u32) -> bool
    ensures { result ≡ is_free free.now site.now vertex }
{
    free.contains(vertex) && !is_end(site, vertex)
}

fn is_end(site: &Site, vertex: u32) -> bool
    ensures { result ≡ is_in vertex (ends_at site.now) }
{
    match site {
        Site::Centre { at, .. } => *at == vertex,
        Site::Bond { a, b, .. } | Site::Axis { a, b, .. } => *a == vertex || *b == vertex,
    }
}

fn add_sites(free: &mut VertexSet, sites: &[Site]) -> Result<(), AllocError>
    ensures { OnOk result (free.new ≡ with_new free.old (flat_map ends_at sites.now)) }
{
    for site in sites {
        add_site(free, site)?;
    }
    Ok(())
}

fn add_site(free: &mut VertexSet, site: &Site) -> Result<(), AllocError>
    ensures { OnOk result (free.new ≡ with_new free.old (ends_at site.now)) }
{
    match site {
        Site::Centre { at, .. } => free.insert_if(true, *at),
        Site::Bond { a, b, .. } | Site::Axis { a, b, .. } => {
            free.insert_if(true, *a)?;
            free.insert_if(true, *b)
        }
    }
}

fn add_all(free: &mut VertexSet, atoms: &[u32]) -> Result<(), AllocError>
    ensures { OnOk result (free.new ≡ with_new free.old atoms.now) }
{
    for atom in atoms {
        free.insert_if(true, *atom)?;
    }
    Ok(())
}

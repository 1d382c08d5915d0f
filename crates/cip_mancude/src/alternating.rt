// Alternating atoms, and the other ends of their double bonds.
ghost use Rattle.std.specs.Prelude.{◌≡◌, ◌<◌, IfOk, length};
ghost use Rattle.cip_digraph.specs.graph.Graph.{edges_at};
ghost use Rattle.cip_digraph.specs.graph.SoundGraphs.{IsSound};
ghost use Rattle.cip_digraph.specs.rings.Alternating.{is_alternating, is_in, singles};
ghost use Rattle.cip_mancude.specs.Partners.{alternating_partner, ArePartners, sole_counted, with_partners};

use cip_digraph::{Edge, Graph};
use std::alloc::{AllocError, Global};
use std::marker::Model;

/// How many bonds an alternating atom has at most.
const MOST_BONDS: usize = 3;

/// A graph and the partners of its first vertices, which are found once; those of the others are found whenever they
/// are asked for. Contracts see the graph.
#[derive(Drop)]
pub struct Alternation<'a> {
    graph: &'a Graph,
    partners: Vec<Option<u32>>,
}

impl<'a> Model for Alternation<'a> {
    ghost use Rattle.cip_digraph.specs.graph.Graph as graphs;
    ghost use Rattle.cip_mancude.specs.Partners.{ArePartners};

    ghost Value = { graphs.Graph };

    ghost view = { λ a. a.graph.now };

    ghost invariant = { λ a. ArePartners a.graph.now a.partners.items };
}

impl<'a> Alternation<'a> {
    /// With the partners of all vertices.
    pub fn new(alloc: Global, graph: &'a Graph) -> Result<Alternation<'a>, AllocError>
        ensures { IfOk result (λ alternation. alternation ≡ graph.now) }
    {
        match partners_of(alloc, graph) {
            Ok(partners) => Ok(Alternation { graph, partners }),
            Err(error) => Err(error),
        }
    }

    /// With the partners of none. It takes no memory.
    pub fn bare(alloc: Global, graph: &'a Graph) -> Alternation<'a>
        ensures { result ≡ graph.now }
    {
        Alternation {
            graph,
            partners: Vec::new(alloc),
        }
    }

    /// The edges at a vertex, by ascending neighbour.
    pub fn edges_at(&self, vertex: u32) -> &[Edge]
        ensures value { result.now ≡ edges_at self.now vertex }
        ensures sound { IsSound self.now }
    {
        self.graph.edges_at(vertex)
    }

    /// The other end of the double bond of an alternating atom; none of any other vertex.
    pub fn partner(&self, vertex: u32) -> Option<u32>
        ensures { result ≡ alternating_partner self.now vertex }
    {
        match self.partners.get(vertex as usize) {
            Some(partner) => *partner,
            None => alternating_partner(self.graph, vertex),
        }
    }

    /// Whether a vertex is an alternating atom.
    pub fn alternates(&self, vertex: u32) -> bool
        ensures { result ≡ is_alternating self.now vertex }
    {
        self.partner(vertex).is_some()
    }

    /// Whether a single bond leads from a vertex to another.
    pub fn is_single(&self, vertex: u32, other: u32) -> bool
        ensures { result ≡ is_in other (singles self.now vertex) }
    {
        for edge in self.edges_at(vertex) {
            if edge.order == 1 && edge.other_end(vertex) == other {
                return true;
            }
        }
        false
    }
}

// The partner of each vertex. Only an end of a counted bond has one.
fn partners_of(alloc: Global, graph: &Graph) -> Result<Vec<Option<u32>>, AllocError>
    ensures { IfOk result (λ partners. ArePartners graph.now partners.items) }
{
    let Ok(mut partners) = vec![in alloc; None; graph.vertices().len()] else {
        return Err(AllocError);
    };
    for edge in graph.edges() {
        note_partners(graph, edge, &mut partners);
    }
    Ok(partners)
}

// Notes the partners of both ends of an edge that is counted.
fn note_partners(graph: &Graph, edge: &Edge, partners: &mut Vec<Option<u32>>)
    requires a { edge.now.a < length partners.old.items }
    requires b { edge.now.b < length partners.old.items }
    ensures { partners.new.items ≡ with_partners graph.now edge.now partners.old.items }
{
    if edge.counted {
        partners[edge.a as usize] = alternating_partner(graph, edge.a);
        partners[edge.b as usize] = alternating_partner(graph, edge.b);
    }
}

fn alternating_partner(graph: &Graph, vertex: u32) -> Option<u32>
    ensures { result ≡ alternating_partner graph.now vertex }
{
    let edges = graph.edges_at(vertex);
    match sole_counted(edges) {
        Some(edge) if edge.order == 2 && edges.len() <= MOST_BONDS => Some(edge.other_end(vertex)),
        _ => None,
    }
}

// The counted bond, where there is exactly one.
fn sole_counted(edges: &[Edge]) -> Option<Edge>
    ensures { result ≡ sole_counted edges.now }
{
    let mut found = None;
    for edge in edges {
        if edge.counted {
            if found.is_some() {
                return None;
            }
            found = Some(*edge);
        }
    }
    found
}

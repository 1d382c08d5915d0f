// The graph of a molecule: its vertices, the edges between them, and the edges at each vertex.
ghost use Rattle.std.specs.Prelude.{◌≡◌, true, IfOk};
ghost use Rattle.cip_digraph.specs.graph.Graph.{edges_at, other_end};
ghost use Rattle.cip_digraph.specs.graph.GraphRanges.{IsInRange};
ghost use Rattle.cip_digraph.specs.graph.SoundGraphs.{IsSound};

use crate::drawing::incidence::{Incidence, incidence_of};
use std::alloc::{AllocError, Global};
use std::marker::Model;

/// An atom or implicit hydrogen.
#[derive(Clone, Copy, PartialEq, Eq)]
pub struct Vertex {
    /// Atomic number.
    pub z: u8,
    /// Mass number; 0 where the atom isn't labelled.
    pub isotope: u16,
    /// In elementary charges.
    pub charge: i8,
    /// It has a lone pair that can be a ligand.
    pub lone: bool,
}

/// A bond, or the bond of an implicit hydrogen.
#[derive(Clone, Copy, Default, PartialEq, Eq)]
pub struct Edge {
    pub a: u32,
    pub b: u32,
    /// 1 single, 2 double, 3 triple.
    pub order: u8,
    /// A multiple bond that stands for duplicates of its ends.
    pub counted: bool,
}

impl Edge {
    /// The end that isn't this vertex.
    pub fn other_end(&self, vertex: u32) -> u32
        ensures { result ≡ other_end vertex self.now }
    {
        if self.a == vertex { self.b } else { self.a }
    }
}

/// A sound graph. Contracts see its vertices, its edges and how many of the vertices are drawn.
#[derive(Drop)]
pub struct Graph {
    vertices: Vec<Vertex>,
    edges: Vec<Edge>,
    drawn: u32,
    incidence: Incidence,
}

impl Model for Graph {
    ghost use Rattle.std.specs.Prelude.{length};
    ghost use Rattle.cip_digraph.specs.graph.Graph as graphs;

    ghost Value = { graphs.Graph };

    ghost view = { λ g. record { vertices = g.vertices.items; edges = g.edges.items; drawn = g.drawn } };

    ghost use Rattle.cip_digraph.specs.graph.GraphRanges.{IsInRange};
    ghost use Rattle.cip_digraph.specs.graph.Incidence.{IsIncidence};
    ghost use Rattle.cip_digraph.specs.graph.SoundGraphs.{IsSound};

    ghost invariant = { λ g. IsInRange (record { vertices = g.vertices.items; edges = g.edges.items; drawn = g.drawn })
        × IsSound (record { vertices = g.vertices.items; edges = g.edges.items; drawn = g.drawn })
        × IsIncidence (length g.vertices.items) g.edges.items g.incidence.rows };
}

impl Graph {
    /// The graph of vertices and edges. It takes time linear in their numbers.
    pub fn new(
        alloc: Global,
        vertices: Vec<Vertex>,
        edges: Vec<Edge>,
        drawn: u32,
    ) -> Result<Graph, AllocError>
        requires range { IsInRange (record { vertices = vertices.items; edges = edges.items; drawn = drawn }) }
        requires sound { IsSound (record { vertices = vertices.items; edges = edges.items; drawn = drawn }) }
        ensures { IfOk result (λ g. g ≡ record { vertices = vertices.items; edges = edges.items; drawn = drawn }) }
    {
        match incidence_of(alloc, vertices.len() as u32, &edges) {
            Ok(incidence) => Ok(Graph {
                vertices,
                edges,
                drawn,
                incidence,
            }),
            Err(error) => Err(error),
        }
    }

    /// The same graph once more. It takes time linear in its size.
    pub fn copy(&self, alloc: Global) -> Result<Graph, AllocError>
        ensures { IfOk result (λ copy. copy ≡ self.now) }
    {
        let Ok(vertices) = Vec::from_slice(alloc, &self.vertices) else {
            return Err(AllocError);
        };
        match Vec::from_slice(alloc, &self.edges) {
            Ok(edges) => Graph::new(alloc, vertices, edges, self.drawn),
            Err(error) => Err(error),
        }
    }

    /// Whether another graph is the same one, vertex by vertex and edge by edge.
    pub fn is_same(&self, other: &Graph) -> bool
        ensures { result ≡ true → self.now ≡ other.now }
    {
        self.drawn == other.drawn
            && are_same_vertices(&self.vertices, &other.vertices)
            && are_same_edges(&self.edges, &other.edges)
    }

    /// The vertices: atoms first, then implicit hydrogens.
    pub fn vertices(&self) -> &[Vertex]
        ensures value { result.now ≡ self.now.vertices }
        ensures range { IsInRange self.now }
        ensures sound { IsSound self.now }
    {
        &self.vertices
    }

    /// The edges.
    pub fn edges(&self) -> &[Edge]
        ensures value { result.now ≡ self.now.edges }
        ensures range { IsInRange self.now }
        ensures sound { IsSound self.now }
    {
        &self.edges
    }

    /// How many vertices are atoms of the drawing: they come first.
    pub fn drawn(&self) -> u32
        ensures value { result ≡ self.now.drawn }
        ensures range { IsInRange self.now }
        ensures sound { IsSound self.now }
    {
        self.drawn
    }

    /// The edges at a vertex, by ascending neighbour. There are none at a number that is no vertex.
    pub fn edges_at(&self, vertex: u32) -> &[Edge]
        ensures value { result.now ≡ edges_at self.now vertex }
        ensures range { IsInRange self.now }
        ensures sound { IsSound self.now }
    {
        self.incidence.of(vertex)
    }
}

// Whether the lists are equal.
fn are_same_vertices(vertices: &[Vertex], others: &[Vertex]) -> bool
    ensures { result ≡ true → vertices.now ≡ others.now }
{
    vertices == others
}

// Whether the lists are equal.
fn are_same_edges(edges: &[Edge], others: &[Edge]) -> bool
    ensures { result ≡ true → edges.now ≡ others.now }
{
    edges == others
}

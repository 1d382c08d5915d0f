// A whole digraph whose nodes are known.
ghost use Rattle.std.specs.Prelude.{◌≡◌, ◌<◌, length};
ghost use Rattle.cip_digraph.specs.digraph.Telling.{TellsWhole};
ghost use Rattle.cip_aux.specs.Views.{IsWholeTold};

use cip_digraph::{Graph, Nodes, Positions};
use cip_rank::Rules;
use std::marker::Model;

/// The whole digraph of a graph from a root, up to its last sphere, and the wording by which it is ranked.
#[derive(Drop)]
pub struct WholeDigraph<'a, N: Nodes> {
    nodes: &'a N,
    graph: &'a Graph,
    positions: &'a Positions,
    rules: Rules,
    root: u32,
    last: u32,
}

impl<'a, N: Nodes> Model for WholeDigraph<'a, N> {
    ghost use Rattle.cip_aux.specs.Views.{WholeDigraph as AnyWhole, IsWholeTold};

    ghost Value = { AnyWhole };

    ghost view = { λ whole. record {
      rules = whole.rules;
      graph = whole.graph.now;
      positions = whole.positions.now;
      root = whole.root;
      last = whole.last;
      node_data = N.nodes whole.nodes.now;
    } };

    ghost invariant = { λ whole. IsWholeTold (record {
      rules = whole.rules;
      graph = whole.graph.now;
      positions = whole.positions.now;
      root = whole.root;
      last = whole.last;
      node_data = N.nodes whole.nodes.now;
    }) };
}

impl<'a, N: Nodes> WholeDigraph<'a, N> {
    /// What is known of the whole digraph of a graph, and the wording.
    pub fn new(
        nodes: &'a N,
        graph: &'a Graph,
        positions: &'a Positions,
        rules: Rules,
        root: u32,
        last: u32,
    ) -> WholeDigraph<'a, N>
        requires whole { TellsWhole graph.now positions.now root last (N.nodes nodes.now) }
        requires root { root < length graph.now.vertices }
        ensures { result ≡ record {
          rules = rules;
          graph = graph.now;
          positions = positions.now;
          root = root;
          last = last;
          node_data = N.nodes nodes.now;
        } }
    {
        let _vertices = graph.vertices();
        WholeDigraph {
            nodes,
            graph,
            positions,
            rules,
            root,
            last,
        }
    }

    /// Its nodes.
    pub fn nodes(&self) -> &N
        ensures node_data { N.nodes result.now ≡ self.now.node_data }
        ensures whole { IsWholeTold self.now }
    {
        self.nodes
    }

    /// The wording.
    pub fn rules(&self) -> Rules
        ensures { result ≡ self.now.rules }
    {
        self.rules
    }
}

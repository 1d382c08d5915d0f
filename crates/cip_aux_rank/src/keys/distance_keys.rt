// The keys of Rule 1b, seen from a node.
ghost use Rattle.std.specs.Prelude.{◌≡◌, ◌<◌, true, false, length, None};
ghost use Rattle.cip_aux.specs.Views.{IsReal, path_at, sight_of};
ghost use Rattle.cip_partition.specs.Parting.{has_flag};
ghost use Rattle.cip_digraph.specs.digraph.NodeList.{parents_of};
ghost use Rattle.cip_digraph.specs.digraph.View.{apart};
ghost use Rattle.cip_aux.specs.Sources.{carrier_of, distance_node};
ghost use Rattle.cip_aux_rank.specs.Keys.{IsFlagged, IsMeet, KnowSteps, distance_at, distance_keys};

use cip_aux::WholeDigraph;
use cip_digraph::{NodeKind, Nodes};
use cip_rank::path_flags::parent_of;
use cip_rank::{Keyed, Rules};
use std::cmp::Ordering;

/// The distances of a digraph's nodes from one of them: how many steps away the real node is that Rule 1b names. Those
/// of the first nodes may be known; for the others the way is climbed, by flags of the nodes on the way from the root.
#[derive(Drop)]
pub struct Distances<'a, N: Nodes> {
    pub whole: &'a WholeDigraph<'a, N>,
    pub way: &'a [bool],
    pub known: &'a [u32],
    pub from: u32,
    ghost real: { IsReal (sight_of whole.now).nodes from },
    ghost flagged: { IsFlagged (parents_of whole.now.node_data) from way.now },
    ghost counted: { KnowSteps (sight_of whole.now) from (length known.now) known.now },
}

/// Whether a node isn't on the way, whose flags these are, and not the root.
pub fn is_off_path(way: &[bool], node: u32) -> bool
    ensures some { result ≡ true → 0 < node }
    ensures off { result ≡ true → has_flag way.now node ≡ false }
    ensures on { result ≡ false → 0 < node → has_flag way.now node ≡ true }
{
    match way.get(node as usize) {
        Some(flag) => node > 0 && !*flag,
        None => node > 0,
    }
}

// The node that carries a duplicate: its parent.
fn carrier<N: Nodes>(nodes: &N, node: u32) -> u32
    requires { node < length (N.nodes nodes.now) }
    ensures { result ≡ carrier_of (N.nodes nodes.now) node }
{
    nodes.table().parent(node).unwrap_or(0)
}

// The real node whose distance is the key of a node.
fn source<N: Nodes>(nodes: &N, rules: Rules, node: u32) -> u32
    requires { node < length (N.nodes nodes.now) }
    ensures { result ≡ distance_node rules (N.nodes nodes.now) node }
{
    match nodes.kind(node) {
        NodeKind::Real => node,
        NodeKind::Closure => nodes.counterpart(node).unwrap_or(0),
        NodeKind::Multiple => match rules {
            Rules::Wording2013 => nodes.counterpart(node).unwrap_or(0),
            Rules::Wording2018 => carrier(nodes, node),
        },
        NodeKind::Delocalised => carrier(nodes, node),
    }
}

impl<N: Nodes> Distances<'_, N> {
    // Where the way from the root to a real node leaves the one to the node that is looked from. Seen from the root, it
    // is the root.
    fn meet(&self, node: u32) -> u32
        requires real { IsReal (sight_of self.now.whole.now).nodes node }
        ensures { IsMeet (sight_of self.now.whole.now) self.now.from node result }
    {
        let nodes = self.whole.nodes();
        let table = nodes.table();
        let _count = table.len();
        if self.from == 0 {
            0
        } else {
            let mut at = node;
            while is_off_path(self.way, at) {
                at = parent_of(table, at);
            }
            at
        }
    }

    // How many steps a real node is away.
    fn steps(&self, node: u32) -> u64
        requires real { IsReal (sight_of self.now.whole.now).nodes node }
        ensures { result ≡ apart (path_at (sight_of self.now.whole.now).nodes self.now.from)
            (path_at (sight_of self.now.whole.now).nodes node) }
    {
        let nodes = self.whole.nodes();
        let table = nodes.table();
        let meet = u64::from(table.sphere(self.meet(node)));
        let here = u64::from(table.sphere(self.from));
        let there = u64::from(table.sphere(node));
        (here - meet) + (there - meet)
    }

    // How many bonds away the real node is that Rule 1b names for a node.
    fn distance(&self, node: u32) -> u64
        requires { node < length self.now.whole.now.node_data }
        ensures { result ≡ distance_at (sight_of self.now.whole.now) self.now.from node }
    {
        let nodes = self.whole.nodes();
        let source = source(nodes, self.whole.rules(), node);
        match self.known.get(source as usize) {
            Some(steps) => u64::from(*steps),
            None => self.steps(source),
        }
    }
}

impl<N: Nodes> Keyed for Distances<'_, N> {
    ghost nodes = { λ keys. length keys.whole.now.node_data };

    ghost key = { λ keys. distance_keys (sight_of keys.whole.now) keys.from };

    #[tactic(auto, using(crate::proofs::lemmas::NodeKeys::distance_key_is))]
    fn compare(&self, a: u32, b: u32) -> Ordering {
        // lower distances precede
        self.distance(b).cmp(&self.distance(a))
    }
}

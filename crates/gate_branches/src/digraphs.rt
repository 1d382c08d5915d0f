// Small trees as digraphs that are seen from one of their nodes, and what each rule sees of a node.
ghost use Rattle.std.specs.Prelude.{◌≡◌, ℕ, pos, true, length, None};
ghost use Rattle.std.specs.List.{slice_index_or};
ghost use Rattle.cip_rank.specs.Ranking.{key_at};
ghost use Rattle.cip_rules.specs.Orders.{key_by, key_of_descriptor, order_before};
ghost use Rattle.gate_branches.specs.Digraphs.{itself, keys_by, listed, seen_of};

use cip_branches::{NodeKeys, ViewedTree};
use cip_digraph::Descriptors;
use cip_mol::{Descriptor, Rule};
use cip_rank::Keyed;
use cip_rules::{DescriptorMap, NodeDescriptors, compare_values, descriptor_value};
use std::cmp::Ordering;
use std::marker::Model;

/// A tree as a digraph that is seen from one of its nodes: keys of its nodes by Rules 1a, 1b and 2, their descriptors,
/// and the outermost sphere. A node that a list doesn't reach has the key 0, or no descriptor.
#[derive(Drop)]
pub struct SmallDigraph<'a> {
    pub around: &'a ViewedTree<'a>,
    pub atoms: &'a [u8],
    pub distances: &'a [u8],
    pub masses: &'a [u8],
    pub descriptors: &'a Descriptors,
    pub height: u32,
}

impl<'a> Model for SmallDigraph<'a> {
    ghost use Rattle.gate_branches.specs.Digraphs.{Columns};

    ghost Value = { Columns };

    ghost view = { λ digraph. record {
      parents = digraph.around.now.table.now.parents;
      way = digraph.around.now.way.now;
      atoms = digraph.atoms.now;
      distances = digraph.distances.now;
      masses = digraph.masses.now;
      descriptors = digraph.descriptors.now.descriptors;
      height = digraph.height;
    } };
}

impl<'a> SmallDigraph<'a> {
    /// The same digraph with another outermost sphere.
    pub fn with_height(&self, height: u32) -> SmallDigraph<'a>
        ensures { result ≡ record self.now { height = height } }
    {
        SmallDigraph {
            around: self.around,
            atoms: self.atoms,
            distances: self.distances,
            masses: self.masses,
            descriptors: self.descriptors,
            height,
        }
    }

    /// How many nodes there are.
    pub fn len(&self) -> u32
        ensures { result ≡ length self.now.parents }
    {
        self.around.table.len()
    }
}

impl DescriptorMap for SmallDigraph<'_> {
    ghost descriptors = { λ digraph. digraph.descriptors };

    fn descriptor(&self, node: u32) -> Option<Descriptor> {
        self.descriptors.get(node)
    }
}

impl NodeDescriptors for SmallDigraph<'_> {
    ghost Node = { ℕ };

    ghost seen = { λ digraph. seen_of digraph };

    ghost named = { λ digraph. itself };
}

/// The keys of a digraph's nodes by a rule.
#[derive(Drop)]
pub struct RuleKeys<'a> {
    pub digraph: &'a SmallDigraph<'a>,
    pub rule: Rule,
}

// A key of a node; 0 where the list has none.
fn key_in(keys: &[u8], node: u32) -> u8
    ensures { pos result ≡ listed keys.now node }
{
    match keys.get(node as usize) {
        Some(key) => *key,
        None => 0,
    }
}

impl RuleKeys<'_> {
    // The key of a node.
    fn key(&self, node: u32) -> u8
        ensures { pos result ≡ key_at (keys_by self.now.digraph.now self.now.rule) node }
    {
        let digraph = self.digraph;
        match self.rule {
            Rule::R1a => key_in(digraph.atoms, node),
            Rule::R1b => key_in(digraph.distances, node),
            Rule::R2 => key_in(digraph.masses, node),
            Rule::R3 | Rule::R4a | Rule::R4b | Rule::R4c | Rule::R5 => self.descriptor_key(node),
        }
    }

    // What the descriptor of a node counts for.
    fn descriptor_key(&self, node: u32) -> u8
        ensures { pos result ≡ key_of_descriptor true self.now.rule (slice_index_or self.now.digraph.now.descriptors node None) }
    {
        let digraph = self.digraph;
        let descriptors = digraph.descriptors;
        if node < descriptors.len() {
            descriptor_value(self.rule, true, descriptors.get(node))
        } else {
            descriptor_value(self.rule, true, None)
        }
    }
}

impl Keyed for RuleKeys<'_> {
    ghost nodes = { λ keys. length keys.digraph.now.parents };

    ghost key = { λ keys. keys_by keys.digraph.now keys.rule };

    fn compare(&self, a: u32, b: u32) -> Ordering {
        compare_values(self.key(a), self.key(b))
    }
}

impl NodeKeys for RuleKeys<'_> {
    ghost Node = { ℕ };

    ghost named = { λ keys. itself };

    ghost children = { λ keys. (seen_of keys.digraph.now).children };

    ghost earlier = { λ keys. order_before (seen_of keys.digraph.now) true keys.rule };

    ghost node_key = { λ keys. key_by (seen_of keys.digraph.now) true keys.rule };
}

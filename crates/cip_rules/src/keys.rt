// The keys of a digraph's nodes, as ranking takes them.
ghost use Rattle.std.specs.Prelude.{map, length};
ghost use Rattle.cip_digraph.specs.rules.Keys.{lower_precedes};
ghost use Rattle.cip_digraph.specs.digraph.NodeList.{distance_told};
ghost use Rattle.cip_rules.specs.NodeKeys.{atomic_keys, mass_keys};

use cip_digraph::Nodes;
use cip_rank::{Keyed, Rules};
use std::cmp::Ordering;

/// The higher atomic key precedes: Rule 1a.
#[derive(Drop)]
pub struct ByAtom<'a, N: Nodes> {
    pub nodes: &'a N,
}

impl<N: Nodes> Keyed for ByAtom<'_, N> {
    ghost nodes = { λ keys. length (N.nodes keys.nodes.now) };

    ghost key = { λ keys. atomic_keys (N.nodes keys.nodes.now) };

    #[tactic(auto, using(crate::proofs::lemmas::NodeKeys::atoms_compare))]
    fn compare(&self, a: u32, b: u32) -> Ordering {
        self.nodes.atom_key(a).cmp(&self.nodes.atom_key(b))
    }
}

/// The lower distance key precedes: Rule 1b.
#[derive(Drop)]
pub struct ByDistance<'a, N: Nodes> {
    pub nodes: &'a N,
    pub rules: Rules,
}

impl<N: Nodes> Keyed for ByDistance<'_, N> {
    ghost nodes = { λ keys. length (N.nodes keys.nodes.now) };

    ghost key = { λ keys. map (λ node_data. lower_precedes (distance_told keys.rules node_data)) (N.nodes keys.nodes.now) };

    #[tactic(auto, using(crate::proofs::lemmas::NodeKeys::distances_compare))]
    fn compare(&self, a: u32, b: u32) -> Ordering {
        self.nodes
            .distance_key(b, self.rules)
            .cmp(&self.nodes.distance_key(a, self.rules))
    }
}

/// The higher mass key precedes: Rule 2.
#[derive(Drop)]
pub struct ByMass<'a, N: Nodes> {
    pub nodes: &'a N,
}

impl<N: Nodes> Keyed for ByMass<'_, N> {
    ghost nodes = { λ keys. length (N.nodes keys.nodes.now) };

    ghost key = { λ keys. mass_keys (N.nodes keys.nodes.now) };

    #[tactic(auto, using(crate::proofs::lemmas::NodeKeys::masses_compare))]
    fn compare(&self, a: u32, b: u32) -> Ordering {
        self.nodes.mass_key(a).cmp(&self.nodes.mass_key(b))
    }
}

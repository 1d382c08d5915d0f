// The order of places by the keys of their nodes.
ghost use Rattle.std.specs.Prelude.{◌<◌, length};
ghost use Rattle.std.specs.Ordering.{int_cmp, on};
ghost use Rattle.cip_partition.specs.Keys.{key_of, AreKeyed};

use crate::places::place_tree::PlaceTree;
use cip_rank::Keyed;
use cip_rank::sorting::NodeOrder;
use std::cmp::Ordering;

/// By the keys of nodes at places.
#[derive(Drop)]
pub struct ByKeys<'a, K: Keyed> {
    pub family: &'a PlaceTree,
    pub keys: &'a K,
    ghost keyed: { AreKeyed (K.nodes keys.now) family.now },
}

impl<K: Keyed> NodeOrder for ByKeys<'_, K> {
    ghost use Rattle.std.proofs.lemmas.Cmp.{on_total, int_cmp_total};

    ghost nodes = { λ by. length by.family.now.place_parents };

    ghost order = { λ by. on (key_of (K.key by.keys.now) by.family.now) int_cmp };

    fn count(&self) -> u32 {
        self.family.len()
    }

    // Compares the nodes at two places by their keys.
    fn compare_nodes(&self, a: u32, b: u32) -> Ordering {
        self.keys.compare(self.family.node(a), self.family.node(b))
    }

    ghost total = { λ by. on_total (key_of (K.key by.keys.now) by.family.now) int_cmp_total };
}

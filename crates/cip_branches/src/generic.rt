// Branches of nodes of any kind, ranked by a rule: how the numbers of their tops compare.
ghost use Rattle.std.specs.Prelude.{◌≡◌, ◌<◌, ◌≤◌, ◌+◌, ◌-◌, suc, ℕ, ℤ, List, length, slice_index};
ghost use Rattle.std.specs.Cmp.{IsTotalOrder};
ghost use Rattle.std.specs.declared.cmp.Ordering.{Ordering};
ghost use Rattle.std.specs.declared.cmp.Ordering.TheVariants.{Equal};
ghost use Rattle.cip_rank.specs.Ranking.{key_at};
ghost use Rattle.cip_branches.specs.ViewedTree.{kids_around};
ghost use Rattle.cip_branches.specs.Deciding.{AreDecided, AreFollowed};
ghost use Rattle.cip_branches.specs.Ruled.{Names};
ghost use Rattle.cip_branches.specs.Standing.{AreKeysOf, IsTaken, StandsBy};
ghost use Rattle.cip_branches.specs.Walking.{kids_left};
ghost use Rattle.cip_partition.specs.Keys.{AreKeyed};

use crate::branches::Branches;
use crate::view::ViewedTree;
use cip_rank::Keyed;

/// Keys of nodes of any kind, given by number: which node a number names, the tree in which it stands, and the order
/// over which the rule of these keys is taken.
pub trait NodeKeys: Keyed {
    /// What is in the tree.
    ghost Node: { Type 0 };

    /// The node of a number.
    ghost named: { Self → ℕ → Node };

    ghost children: { Self → Node → List Node };

    /// How two nodes compare before the rule.
    ghost earlier: { Self → Node → Node → Ordering };

    ghost node_key: { Self → Node → ℤ };
}

impl Branches {
    /// Begins anew with a branch below each of these nodes, by the first rule of all: before it all nodes tie.
    pub fn begin_by<K: NodeKeys>(&mut self, tops: &[u32], keys: &K)
        requires room { length tops.now ≤ self.old.layers.place_tree.room }
        requires some { 0 < self.old.layers.place_tree.room }
        requires keyed { (k : ℕ) → k < length tops.now → slice_index tops.now k < K.nodes keys.now }
        requires first { (a b : K.Node) → K.earlier keys.now a b ≡ Equal }
        requires same { (k : ℕ) → k < length tops.now → key_at (K.key keys.now) (slice_index tops.now k)
            ≡ K.node_key keys.now (K.named keys.now (slice_index tops.now k)) }
        ensures decided { AreDecided (K.children keys.now) (K.earlier keys.now) (K.node_key keys.now)
            (K.named keys.now) self.new }
        ensures followed { AreFollowed self.new }
        ensures last { self.new.last ≡ 0 }
        ensures room { self.new.layers.place_tree.room ≡ self.old.layers.place_tree.room }
    {
        self.begin(tops, keys);
    }

    /// Follows the tree by one sphere and takes the first rule as far. The tops' numbers compare as their branches do by
    /// the rule, as deep as the spheres that were followed.
    pub fn follow_by<K: NodeKeys>(&mut self, around: &ViewedTree<'_>, keys: &K)
        requires followed { AreFollowed self.old }
        requires nodes { AreKeyed (length around.now.table.now.parents) self.old.layers.place_tree }
        requires room { length self.old.layers.place_tree.place_parents + kids_left (kids_around around.now.table.now.parents
            around.now.way.now) self.old.layers.place_tree.nodes self.old.first (length self.old.layers.place_tree.place_parents
            - self.old.first) ≤ self.old.layers.place_tree.room }
        requires sphere_room { self.old.last + 2 ≤ self.old.layers.place_tree.room }
        requires keyed { length around.now.table.now.parents ≤ K.nodes keys.now }
        requires first { (a b : K.Node) → K.earlier keys.now a b ≡ Equal }
        requires names { Names (K.children keys.now) (K.earlier keys.now) (K.node_key keys.now) (K.named keys.now)
            self.old.layers self.old.unresolved self.old.last (length around.now.table.now.parents)
            (kids_around around.now.table.now.parents around.now.way.now) (K.key keys.now) }
        requires decided { AreDecided (K.children keys.now) (K.earlier keys.now) (K.node_key keys.now)
            (K.named keys.now) self.old }
        ensures decided { AreDecided (K.children keys.now) (K.earlier keys.now) (K.node_key keys.now)
            (K.named keys.now) self.new }
        ensures followed { AreFollowed self.new }
        ensures last { self.new.last ≡ suc self.old.last }
        ensures room { self.new.layers.place_tree.room ≡ self.old.layers.place_tree.room }
    {
        self.follow(around, keys);
    }

    /// Goes on with a later rule, from the present numbers by the order before it.
    pub fn next_rule_by<K: NodeKeys>(&mut self, keys: &K)
        requires followed { AreFollowed self.old }
        requires keyed { AreKeyed (K.nodes keys.now) self.old.layers.place_tree }
        requires total { IsTotalOrder (K.earlier keys.now) }
        requires same { AreKeysOf (K.named keys.now) (K.node_key keys.now) (K.key keys.now) self.old }
        requires stands { StandsBy (K.children keys.now) (K.named keys.now) (K.earlier keys.now) self.old }
        ensures taken { IsTaken (K.children keys.now) (K.named keys.now) (K.earlier keys.now) (K.node_key keys.now) 0
            self.new }
        ensures followed { AreFollowed self.new }
        ensures last { self.new.last ≡ self.old.last }
    {
        self.next_rule(keys);
    }

    /// Takes the rule one sphere further. The tops' numbers compare as their branches do by it, as deep as it was taken.
    pub fn deepen_by<K: NodeKeys>(&mut self, keys: &K, far: u32)
        requires followed { AreFollowed self.old }
        requires far { far < self.old.last }
        requires keyed { AreKeyed (K.nodes keys.now) self.old.layers.place_tree }
        requires total { IsTotalOrder (K.earlier keys.now) }
        requires same { AreKeysOf (K.named keys.now) (K.node_key keys.now) (K.key keys.now) self.old }
        requires taken { IsTaken (K.children keys.now) (K.named keys.now) (K.earlier keys.now) (K.node_key keys.now)
            far self.old }
        ensures taken { IsTaken (K.children keys.now) (K.named keys.now) (K.earlier keys.now) (K.node_key keys.now)
            (suc far) self.new }
        ensures followed { AreFollowed self.new }
        ensures last { self.new.last ≡ self.old.last }
    {
        self.extend_rule(keys, far);
    }
}

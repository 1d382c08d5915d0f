// Branches followed as long as another one ties with them.
ghost use Rattle.std.specs.Prelude.{◌≡◌, ◌<◌, ◌≤◌, ◌+◌, ◌-◌, ◌^◌, suc, ℕ, true, IfOk, length, replicate, slice_index};
ghost use Rattle.std.specs.List.{list_any};
ghost use Rattle.cip_rank.specs.Ranking.{by_number};
ghost use Rattle.cip_branches.specs.ViewedTree.{kids_around};
ghost use Rattle.cip_branches.specs.Deciding.{no_branches, AreFollowed, FlagsOpen};
ghost use Rattle.cip_branches.specs.Following.{Begins, Follows};
ghost use Rattle.cip_partition.specs.Parting.{has_flag};
ghost use Rattle.cip_partition.specs.Keys.{AreKeyed};
ghost use Rattle.cip_branches.specs.Walking.{kids_left};

use crate::growth::grow::flag_at;
use crate::growth::spheres::Spheres;
use crate::view::ViewedTree;
use cip_partition::ReservedVec;
use cip_rank::{Keyed, zip_ok, zip_results};
use std::alloc::{AllocError, Global};
use std::cmp::Ordering;
use std::marker::Model;

/// Branches of a tree seen from its root or from another node, followed sphere by sphere by one rule. A branch is
/// dropped once its top is distinct from all others: what is decided stays so.
#[derive(Drop)]
pub struct Branches {
    pub(crate) spheres: Spheres,
    // of each branch, whether another one ties with it
    pub(crate) unresolved: ReservedVec<bool>,
    // the flags that are being set
    pub(crate) next_unresolved: ReservedVec<bool>,
    // the first place of the last sphere
    pub(crate) first: u32,
    pub(crate) last: u32,
}

impl Model for Branches {
    ghost use Rattle.cip_branches.specs.ViewedTree.{kids_around};
    ghost use Rattle.cip_branches.specs.Deciding.{Branched, KeepBranches};

    ghost Value = { Branched };

    ghost view = { λ branches. record {
      layers = branches.spheres;
      unresolved = branches.unresolved.items;
      first = branches.first;
      last = branches.last;
    } };

    ghost invariant = { λ branches. KeepBranches branches.spheres branches.unresolved branches.next_unresolved };
}

impl Branches {
    /// No branches, and room for n places.
    pub fn reserve(alloc: Global, room: u32) -> Result<Branches, AllocError>
        requires { room + 1 < 2 ^ 32 }
        ensures { IfOk result (λ branches. branches ≡ no_branches room) }
    {
        let Ok(flags) = zip_results(
            ReservedVec::reserve(alloc, room),
            ReservedVec::reserve(alloc, room),
        ) else {
            return Err(AllocError);
        };
        // proof: what is reserved last is never dropped
        let Ok(((unresolved, next_unresolved), spheres)) = zip_ok(
            flags,
            Spheres::reserve(alloc, room),
        ) else {
            return Err(AllocError);
        };
        Ok(Branches {
            spheres,
            unresolved,
            next_unresolved,
            first: 0,
            last: 0,
        })
    }

    /// Begins anew with a branch below each of these nodes, and ranks them by keys.
    pub fn begin<K: Keyed>(&mut self, tops: &[u32], keys: &K)
        requires room { length tops.now ≤ self.old.layers.place_tree.room }
        requires some { 0 < self.old.layers.place_tree.room }
        requires keyed { (k : ℕ) → k < length tops.now → slice_index tops.now k < K.nodes keys.now }
        ensures begun { Begins tops.now (K.key keys.now) self.new.layers }
        ensures followed { AreFollowed self.new }
        ensures first { self.new.first ≡ 0 }
        ensures last { self.new.last ≡ 0 }
        ensures chosen { FlagsOpen self.new.layers.ranked.numbers (replicate (length tops.now) true) self.new.unresolved }
        ensures room { self.new.layers.place_tree.room ≡ self.old.layers.place_tree.room }
    {
        self.spheres.begin(tops, keys);
        self.first = 0;
        self.last = 0;
        let count = self.spheres.len();
        self.next_unresolved.fill(count, true);
        self.unresolved.fill(count, true);
        self.drop_distinct();
    }

    /// Follows the tree by one sphere below the branches that are still unresolved, takes the rule as far by keys, and
    /// drops those that are distinguished now.
    pub fn follow<K: Keyed>(&mut self, around: &ViewedTree<'_>, keys: &K)
        requires followed { AreFollowed self.old }
        requires nodes { AreKeyed (length around.now.table.now.parents) self.old.layers.place_tree }
        requires room { length self.old.layers.place_tree.place_parents + kids_left (kids_around around.now.table.now.parents
            around.now.way.now) self.old.layers.place_tree.nodes self.old.first (length self.old.layers.place_tree.place_parents
            - self.old.first) ≤ self.old.layers.place_tree.room }
        requires sphere_room { self.old.last + 2 ≤ self.old.layers.place_tree.room }
        requires keyed { length around.now.table.now.parents ≤ K.nodes keys.now }
        ensures walked { Follows self.old.layers self.old.first self.old.last (length around.now.table.now.parents)
            (kids_around around.now.table.now.parents around.now.way.now) self.old.unresolved (K.key keys.now)
            self.new.layers }
        ensures followed { AreFollowed self.new }
        ensures first { self.new.first ≡ length self.old.layers.place_tree.place_parents }
        ensures last { self.new.last ≡ suc self.old.last }
        ensures chosen { FlagsOpen self.new.layers.ranked.numbers self.old.unresolved self.new.unresolved }
        ensures room { self.new.layers.place_tree.room ≡ self.old.layers.place_tree.room }
    {
        let known = self.spheres.len();
        self.spheres.follow(
            around,
            keys,
            self.unresolved.as_slice(),
            self.first,
            self.last,
        );
        self.first = known;
        self.last += 1;
        self.drop_distinct();
    }

    // Resolves each branch that is distinct from all others.
    pub(crate) fn drop_distinct(&mut self)
        ensures chosen { FlagsOpen self.old.layers.ranked.numbers self.old.unresolved self.new.unresolved }
        ensures others { self.new ≡ record self.old { unresolved = self.new.unresolved } }
    {
        let next_unresolved = &mut self.next_unresolved;
        self.spheres
            .flag_unresolved(self.unresolved.as_slice(), &mut next_unresolved.items);
        self.unresolved.copy(self.next_unresolved.as_slice());
    }

    /// How many places there are.
    pub fn len(&self) -> u32
        ensures count { result ≡ length self.now.layers.place_tree.place_parents }
        ensures tops { length self.now.unresolved ≤ length self.now.layers.place_tree.place_parents }
    {
        self.spheres.len()
    }

    /// For how many places there is room.
    pub fn room(&self) -> u32
        ensures { result ≡ self.now.layers.place_tree.room }
    {
        self.unresolved.room()
    }

    /// How many branches there are, still unresolved or dropped.
    pub fn branch_count(&self) -> u32
        ensures count { result ≡ length self.now.unresolved }
        ensures tops { length self.now.unresolved ≤ length self.now.layers.place_tree.place_parents }
    {
        self.unresolved.len()
    }

    /// The first place of the last sphere. Those of all branches that were unresolved for it come after it.
    pub fn first(&self) -> u32
        ensures { result ≡ self.now.first }
    {
        self.first
    }

    /// The node at a place.
    pub fn node(&self, place: u32) -> u32
        requires { place < length self.now.layers.place_tree.place_parents }
        ensures { result ≡ slice_index self.now.layers.place_tree.nodes place }
    {
        self.spheres.family.node(place)
    }

    /// The branch that a place is in.
    pub fn branch(&self, place: u32) -> u32
        requires { place < length self.now.layers.place_tree.place_parents }
        ensures { result ≡ slice_index self.now.layers.place_tree.branches place }
    {
        self.spheres.family.branch(place)
    }

    /// Whether a branch is still unresolved: another one ties with it.
    pub fn is_unresolved(&self, branch: u32) -> bool
        ensures { result ≡ has_flag self.now.unresolved branch }
    {
        flag_at(self.unresolved.as_slice(), branch)
    }

    /// Whether any branch is still unresolved.
    pub fn any_unresolved(&self) -> bool
        ensures { result ≡ list_any (λ flag. flag) self.now.unresolved }
    {
        self.unresolved.as_slice().contains(&true)
    }

    /// The number of a branch, the higher one precedes; 0 where there is no such branch.
    pub fn number(&self, branch: u32) -> u32
        ensures { result ≡ slice_index self.now.layers.ranked.numbers branch }
    {
        let numbers = self.spheres.order.numbers();
        if (branch as usize) < numbers.len() {
            numbers[branch as usize]
        } else {
            0
        }
    }

    /// How two branches compare by the rule, within the spheres that were followed.
    pub fn order(&self, a: u32, b: u32) -> Ordering
        ensures { result ≡ by_number self.now.layers.ranked.numbers a b }
    {
        self.number(a).cmp(&self.number(b))
    }
}

// Nodes, branches, parents and children of places.
ghost use Rattle.std.specs.Prelude.{◌≡◌, ◌<◌, ◌≤◌, ◌+◌, [], IfOk, length, slice_index};
ghost use Rattle.cip_partition.specs.PlaceTree.{IsFamily, with_place, with_children};

use crate::places::place::Place;
use crate::reserved_vec::ReservedVec;
use std::alloc::{AllocError, Global};
use std::marker::Model;

/// Of each place its node, the branch that it is in, its parent, and the range of places in which its children are.
#[derive(Drop)]
pub struct PlaceTree {
    pub(crate) places: ReservedVec<Place>,
}

impl Model for PlaceTree {
    ghost use Rattle.cip_partition.specs.PlaceTree.{PlaceTree, KeepKin, kin_of};

    ghost Value = { PlaceTree };

    ghost view = { λ family. kin_of family.places };

    ghost invariant = { λ family. KeepKin family.places };
}

impl PlaceTree {
    /// No places, and room for n.
    pub fn reserve(alloc: Global, room: u32) -> Result<PlaceTree, AllocError>
        ensures { IfOk result (λ family. family ≡ record {
          room = room;
          nodes = [];
          branches = [];
          place_parents = [];
          firsts = [];
          counts = [];
        }) }
    {
        match ReservedVec::reserve(alloc, room) {
            Ok(places) => Ok(PlaceTree { places }),
            Err(error) => Err(error),
        }
    }

    /// Drops all places, and keeps the memory.
    pub fn clear(&mut self)
        ensures { self.new ≡ record {
          room = self.old.room;
          nodes = [];
          branches = [];
          place_parents = [];
          firsts = [];
          counts = [];
        } }
    {
        self.places.clear();
    }

    /// How many places there are.
    pub fn len(&self) -> u32
        ensures count { result ≡ length self.now.place_parents }
        ensures fits { length self.now.place_parents ≤ self.now.room }
        ensures family { IsFamily self.now }
    {
        self.places.len()
    }

    /// The node at a place.
    pub fn node(&self, place: u32) -> u32
        requires { place < length self.now.place_parents }
        ensures { result ≡ slice_index self.now.nodes place }
    {
        self.places.as_slice()[place as usize].node
    }

    /// The branch that a place is in.
    pub fn branch(&self, place: u32) -> u32
        requires { place < length self.now.place_parents }
        ensures { result ≡ slice_index self.now.branches place }
    {
        self.places.as_slice()[place as usize].branch
    }

    /// The parent of a place.
    pub fn parent(&self, place: u32) -> u32
        requires { place < length self.now.place_parents }
        ensures { result ≡ slice_index self.now.place_parents place }
    {
        self.places.as_slice()[place as usize].parent_place
    }

    /// The children of a place, as the first one and the place after the last one.
    pub fn children(&self, place: u32) -> (u32, u32)
        requires { place < length self.now.place_parents }
        ensures first { result.0 ≡ slice_index self.now.firsts place }
        ensures past { result.1 ≡ slice_index self.now.firsts place + slice_index self.now.counts place }
        ensures within { result.1 ≤ length self.now.place_parents }
    {
        let here = self.places.as_slice()[place as usize];
        (here.first, here.first + here.count)
    }

    /// Adds a place at the end, which has no children yet.
    pub fn push(&mut self, node: u32, branch: u32, parent_place: u32)
        requires { length self.old.place_parents < self.old.room }
        ensures { self.new ≡ with_place node branch parent_place self.old }
    {
        self.places.push(Place {
            node,
            branch,
            parent_place,
            first: 0,
            count: 0,
        });
    }

    /// Sets the range of the children of a place.
    pub fn set_children(&mut self, place: u32, first: u32, count: u32)
        requires place { place < length self.old.place_parents }
        requires within { first + count ≤ length self.old.place_parents }
        ensures { self.new ≡ with_children place first count self.old }
    {
        let mut here = self.places.as_slice()[place as usize];
        here.first = first;
        here.count = count;
        self.places.set(place, here);
    }
}

// Where the double bonds of alternating atoms can be, by vertex.
ghost use Rattle.std.specs.Prelude.{◌≡◌, ◌<◌, ◌≤◌, [], true, IfOk, length, replicate, slice_set};
ghost use Rattle.cip_digraph.specs.rings.PositionLists.{IsKept, IsPositionList, listed};
ghost use Rattle.cip_digraph.specs.rings.Positions.{listed_positions};

use std::alloc::{AllocError, Global};
use std::marker::Model;

/// How many positions a vertex has at most.
const MOST_POSITIONS: usize = 3;

/// The positions of a vertex: the first n of three numbers.
#[derive(Clone, Copy, PartialEq, Eq)]
pub struct PositionList {
    pub count: usize,
    pub numbers: [u32; MOST_POSITIONS],
}

/// Of a vertex that has none.
const NO_POSITIONS: PositionList = PositionList {
    count: 0,
    numbers: [0; MOST_POSITIONS],
};

impl PositionList {
    // The positions as a slice.
    fn as_slice(&self) -> &[u32]
        requires { IsKept self.now }
        ensures { result.now ≡ listed self.now }
    {
        &self.numbers[..self.count]
    }
}

/// The positions of each vertex. Contracts see the list of these lists.
#[derive(Drop)]
pub struct Positions {
    lists: Vec<PositionList>,
}

impl Model for Positions {
    ghost use Rattle.std.specs.Prelude.{ℕ, List, All, map};
    ghost use Rattle.cip_digraph.specs.rings.PositionLists.{IsKept, listed};

    ghost Value = { List (List ℕ) };

    ghost view = { λ p. map listed p.lists.items };

    ghost invariant = { λ p. All IsKept p.lists.items };
}

impl Positions {
    /// Of n vertices, none of which has any.
    pub fn none(alloc: Global, vertices: usize) -> Result<Positions, AllocError>
        ensures { IfOk result (λ positions. positions ≡ replicate vertices []) }
    {
        match vec![in alloc; NO_POSITIONS; vertices] {
            Ok(lists) => Ok(Positions { lists }),
            Err(fault) => Err(fault),
        }
    }

    /// The same positions once more.
    pub fn copy(&self, alloc: Global) -> Result<Positions, AllocError>
        ensures { IfOk result (λ copy. copy ≡ self.now) }
    {
        match Vec::from_slice(alloc, &self.lists) {
            Ok(lists) => Ok(Positions { lists }),
            Err(fault) => Err(fault),
        }
    }

    /// Whether other positions are the same ones.
    pub fn is_same(&self, other: &Positions) -> bool
        ensures { result ≡ true → self.now ≡ other.now }
    {
        self.lists.as_slice() == other.lists.as_slice()
    }

    /// The positions of a vertex, ascending; none of one that isn't alternating.
    pub fn of(&self, vertex: u32) -> &[u32]
        ensures value { result.now ≡ listed_positions self.now vertex }
        ensures list { IsPositionList result.now }
    {
        match self.lists.get(vertex as usize) {
            Some(list) => list.as_slice(),
            None => &[],
        }
    }

    /// Gives a vertex its positions.
    pub fn set(&mut self, vertex: u32, positions: &[u32])
        requires within { vertex < length self.old }
        requires list { IsPositionList positions.now }
        ensures { self.new ≡ slice_set self.old vertex positions.now }
    {
        self.lists[vertex as usize] = list_of(positions);
    }
}

// A list of at most three positions.
fn list_of(positions: &[u32]) -> PositionList
    requires { IsPositionList positions.now }
    ensures value { listed result ≡ positions.now }
    ensures kept { IsKept result }
{
    let mut numbers = [0; MOST_POSITIONS];
    for (place, position) in positions.iter().enumerate() {
        numbers[place] = *position;
    }
    PositionList {
        count: positions.len(),
        numbers,
    }
}

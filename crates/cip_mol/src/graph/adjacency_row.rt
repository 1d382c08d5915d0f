// What is at an atom along the bonds looked at so far.
ghost use Rattle.std.specs.Prelude.{◌≡◌, []};
ghost use Rattle.cip_mol.specs.Neighbours.{with_more, HasRoom};

use crate::graph::molecule::Bond;
use std::marker::Model;

/// How many bonds an atom has at most.
pub const MOST_BONDS: usize = 8;

/// The neighbours of an atom and its bonds, at most eight, in the same order. Contracts see the two lists. They lie in
/// the row itself, so that no push takes memory.
#[derive(Drop)]
pub struct Row {
    count: usize,
    neighbours: [u32; MOST_BONDS],
    bonds: [Bond; MOST_BONDS],
}

impl Model for Row {
    ghost use Rattle.std.specs.Prelude.{◌≤◌, take};
    ghost use Rattle.cip_mol.specs.Neighbours.{AtAtom};

    ghost Value = { AtAtom };

    ghost view = { λ row. record { neighbours = take row.count row.neighbours; bonds = take row.count row.bonds } };

    ghost invariant = { λ row. row.count ≤ 8 };
}

impl Row {
    /// No bonds.
    pub fn new() -> Row
        ensures { result ≡ record { neighbours = []; bonds = [] } }
    {
        Row {
            count: 0,
            neighbours: [0; MOST_BONDS],
            bonds: [Bond::default(); MOST_BONDS],
        }
    }

    /// Adds a bond, and its other end.
    pub fn push(&mut self, neighbour: u32, bond: Bond)
        requires { HasRoom self.old }
        ensures { self.new ≡ with_more neighbour bond self.old }
    {
        self.neighbours[self.count] = neighbour;
        self.bonds[self.count] = bond;
        self.count += 1;
    }

    /// The neighbours in their order.
    pub fn neighbours(&self) -> &[u32]
        ensures { result.now ≡ self.now.neighbours }
    {
        &self.neighbours[..self.count]
    }

    /// The bonds in their order.
    pub fn bonds(&self) -> &[Bond]
        ensures { result.now ≡ self.now.bonds }
    {
        &self.bonds[..self.count]
    }
}

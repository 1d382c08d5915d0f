// What is at each atom along the bonds looked at so far: a bond is looked up among at most eight neighbours, not
// among all the bonds before it.
ghost use Rattle.std.specs.Prelude.{◌≡◌, ◌<◌, [], IfOk, length, replicate};
ghost use Rattle.cip_mol.specs.Neighbours.{HasRoom};
ghost use Rattle.cip_mol.specs.Tables.{row, with_bond, with_entry, IsFree};

use crate::graph::adjacency_row::Row;
use crate::graph::molecule::Bond;
use std::alloc::{AllocError, Global};
use std::marker::Model;

/// A row for each atom. Contracts see the list of rows.
#[derive(Drop)]
pub struct Table {
    rows: Vec<Row>,
}

impl Model for Table {
    ghost use Rattle.std.specs.Prelude.{List};
    ghost use Rattle.cip_mol.specs.Neighbours.{AtAtom};

    ghost Value = { List AtAtom };

    ghost view = { λ table. table.rows.items };
}

impl Table {
    /// n atoms without bonds.
    pub fn new(alloc: Global, atoms: usize) -> Result<Table, AllocError>
        ensures { IfOk result (λ table. table ≡ replicate atoms (record { neighbours = []; bonds = [] })) }
    {
        let Ok(mut rows) = Vec::with_capacity(alloc, atoms) else {
            return Err(AllocError);
        };
        for _ in 0..atoms {
            rows.push_reserved(Row::new());
        }
        Ok(Table { rows })
    }

    /// How many atoms have a row.
    pub fn atoms(&self) -> usize
        ensures { result ≡ length self.now }
    {
        self.rows.len()
    }

    /// Adds a bond, which is at both of its ends.
    pub fn join(&mut self, bond: Bond)
        requires { IsFree self.old bond }
        ensures { self.new ≡ with_bond bond self.old }
    {
        self.push(bond.a, bond.b, bond);
        self.push(bond.b, bond.a, bond);
    }

    /// What is at an atom.
    pub fn row(&self, atom: u32) -> &Row
        requires { atom < length self.now }
        ensures { result.now ≡ row self.now atom }
    {
        &self.rows[atom as usize]
    }

    fn push(&mut self, atom: u32, neighbour: u32, bond: Bond)
        requires within { atom < length self.old }
        requires room { HasRoom (row self.old atom) }
        ensures { self.new ≡ with_entry atom neighbour bond self.old }
    {
        self.rows[atom as usize].push(neighbour, bond);
    }
}

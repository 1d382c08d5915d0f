// The bonds of a molecule while they are read.
ghost use Rattle.std.specs.Prelude.{◌≡◌, ◌<◌, ◌++◌, ◌∷◌, [], IfOk, OnOk, OnErr, None};
ghost use Rattle.std.specs.List.{list_any};
ghost use Rattle.cip_mol.specs.Bonds.{cause_of, degree, joins_same};

use crate::faults::BondCause;
use crate::graph::adjacency::Table;
use crate::graph::adjacency_row::MOST_BONDS;
use crate::graph::molecule::Bond;
use std::alloc::{AllocError, Global};
use std::marker::Model;

/// The bonds of a molecule while they are read, without a fault so far. Contracts see the number of atoms and the
/// list of bonds.
#[derive(Drop)]
pub struct BondList {
    pub(crate) bonds: Vec<Bond>,
    pub(crate) table: Table,
}

impl Model for BondList {
    ghost use Rattle.std.specs.Prelude.{length};
    ghost use Rattle.cip_mol.specs.Connections.{Connections};

    ghost Value = { Connections };

    ghost view = { λ l. record { atoms = length l.table; bonds = l.bonds.items } };

    ghost use Rattle.cip_mol.specs.Bonds.{IsSound};
    ghost use Rattle.cip_mol.specs.Tables.{IsTable};

    ghost invariant = { λ l. IsTable (length l.table) l.bonds.items l.table
        × IsSound (length l.table) l.bonds.items };
}

impl BondList {
    /// No bonds among n atoms.
    pub fn new(alloc: Global, atoms: usize) -> Result<BondList, AllocError>
        ensures { IfOk result (λ list. list ≡ record { atoms = atoms; bonds = [] }) }
    {
        let Ok(table) = Table::new(alloc, atoms) else {
            return Err(AllocError);
        };
        // Room for the bonds of most molecules, which have few rings.
        match Vec::with_capacity(alloc, atoms.saturating_add(atoms / 8 + 4)) {
            Ok(bonds) => Ok(BondList { bonds, table }),
            Err(error) => Err(error),
        }
    }

    /// The first cause that holds at a bond that follows those of the list. The bond is looked up among the
    /// neighbours of its first atom.
    #[tactic(auto, unfolding(crate::specs::Bonds::cause_of))]
    pub fn cause_at(&self, bond: &Bond) -> Option<BondCause>
        ensures { result ≡ cause_of self.now.atoms self.now.bonds bond.now }
    {
        let atoms = self.table.atoms();
        if bond.a as usize >= atoms || bond.b as usize >= atoms {
            Some(BondCause::EndOutOfRange)
        } else if bond.a == bond.b {
            Some(BondCause::Loop)
        } else if self.joins(bond) {
            Some(BondCause::Doubled)
        } else if self.degree(bond.a) >= MOST_BONDS || self.degree(bond.b) >= MOST_BONDS {
            Some(BondCause::Degree)
        } else {
            None
        }
    }

    // Whether a bond of the list joins the same atoms.
    fn joins(&self, bond: &Bond) -> bool
        requires { bond.now.a < self.now.atoms }
        ensures { result ≡ list_any (λ other. joins_same other bond.now) self.now.bonds }
    {
        self.table.row(bond.a).neighbours().contains(&bond.b)
    }

    fn degree(&self, atom: u32) -> usize
        requires { atom < self.now.atoms }
        ensures { result ≡ degree atom self.now.bonds }
    {
        self.table.row(atom).neighbours().len()
    }

    /// Adds a bond at which no cause holds at the end. A refusal leaves the list as it was.
    pub fn push(&mut self, bond: Bond) -> Result<(), AllocError>
        requires { cause_of self.old.atoms self.old.bonds bond ≡ None }
        ensures added { OnOk result (self.new ≡ record self.old { bonds = self.old.bonds ++ bond ∷ [] }) }
        ensures refused { OnErr result (self.new ≡ self.old) }
    {
        self.bonds.push(bond)?;
        self.table.join(bond);
        Ok(())
    }
}

// What is drawn of a molecule.
ghost use Rattle.std.specs.Prelude.{◌≡◌, ◌<◌, ◌-◌, ◌^◌, IfOk, length};
ghost use Rattle.cip_text.specs.Slices.{texts};
ghost use Rattle.cip_digraph.specs.graph.DrawnGraph.{graph_of};
ghost use Rattle.cip_digraph.specs.rings.Positions.{positions_of};
ghost use Rattle.cip_digraph.specs.units.DrawnUnits.{units_in};
ghost use Rattle.cip_molfile.specs.Drawings.{AreDrawnFrom, Fit};
ghost use Rattle.cip_molfile.specs.Molecules.{read_molecule};

use crate::parse::read_molecule;
use cip_digraph::{Graph, Positions, Units};
use cip_hydro::graph_of;
use cip_mancude::positions;
use cip_mol::{Molecule, ReadFault, ReadRefusal};
use cip_unit::units;
use std::alloc::{AllocError, Global};
use std::marker::Model;

/// A molecule with its graph, the positions of its alternating double bonds, and its units. Contracts see it as the
/// molecule.
#[derive(Drop)]
pub struct Structure {
    molecule: Molecule,
    found: Perceived,
}

impl Model for Structure {
    ghost use Rattle.cip_mol.specs.Drawing.{Drawing};
    ghost use Rattle.cip_molfile.specs.Drawings.{AreDrawnFrom};

    ghost Value = { Drawing };

    ghost view = { λ d. d.molecule };

    ghost invariant = { λ d. AreDrawnFrom d.molecule d.found.graph d.found.positions d.found.units };
}

// What is found in a drawing.
#[derive(Drop)]
struct Perceived {
    graph: Graph,
    positions: Positions,
    units: Units,
}

// Graph, positions and units of a molecule.
// proof: the caller keeps the molecule, so no exit drops it
fn found_in(alloc: Global, molecule: &Molecule) -> Result<Perceived, AllocError>
    ensures { IfOk result (λ found. AreDrawnFrom molecule.now found.graph found.positions found.units) }
{
    // Reading the atoms says that there are few.
    let _atoms = molecule.atoms();
    let Ok(graph) = graph_of(alloc, molecule) else {
        return Err(AllocError);
    };
    let Ok(positions) = positions(alloc, &graph) else {
        return Err(AllocError);
    };
    match units(alloc, molecule, &graph, &positions) {
        Ok(units) => Ok(Perceived {
            graph,
            positions,
            units,
        }),
        Err(fault) => Err(fault),
    }
}

impl Structure {
    /// Drops all of it.
    // proof: dropped in a function of another crate, each of its columns takes longer to prove
    pub fn release(self) {}

    /// What is drawn of a molecule.
    pub fn of(alloc: Global, molecule: Molecule) -> Result<Structure, AllocError>
        ensures { IfOk result (λ drawn. drawn ≡ molecule) }
    {
        match found_in(alloc, &molecule) {
            Ok(found) => Ok(Structure { molecule, found }),
            Err(fault) => Err(fault),
        }
    }

    /// What the lines of a record before its terminator line draw, or why they are refused. The record has no label
    /// items.
    pub fn read(alloc: Global, lines: &[&[u8]]) -> Result<Result<Structure, ReadFault>, AllocError>
        requires { length lines.now < 2 ^ 32 - 1 }
        ensures { IfOk result (λ drawn. drawn ≡ read_molecule (texts lines.now)) }
    {
        match read_molecule(alloc, lines) {
            Ok(molecule) => match Structure::of(alloc, molecule) {
                Ok(drawn) => Ok(Ok(drawn)),
                Err(fault) => Err(fault),
            },
            Err(ReadRefusal::Fault(fault)) => Ok(Err(fault)),
            Err(ReadRefusal::Memory) => Err(AllocError),
        }
    }

    /// The molecule itself.
    pub fn molecule(&self) -> &Molecule
        ensures { result.now ≡ self.now }
    {
        &self.molecule
    }

    /// Its atoms, drawn or not, and their bonds.
    pub fn graph(&self) -> &Graph
        ensures { result.now ≡ graph_of self.now }
    {
        &self.found.graph
    }

    /// Where the double bonds of its alternating atoms can be.
    pub fn positions(&self) -> &Positions
        ensures { result.now ≡ positions_of (graph_of self.now) }
    {
        &self.found.positions
    }

    /// Its units, each with what the drawing shows of it.
    pub fn units(&self) -> &Units
        ensures value { result.now ≡ units_in self.now }
        ensures fit { Fit self.now }
    {
        &self.found.units
    }
}

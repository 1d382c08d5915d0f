// The graph of a molecule.
ghost use Rattle.std.specs.Prelude.{◌≡◌, IfOk};
ghost use Rattle.cip_digraph.specs.graph.DrawnGraph.{graph_of};

use crate::edges::edges_of;
use crate::valence_state::{hydrogen_count, surroundings_of};
use crate::vertices::vertices_of;
use cip_digraph::Graph;
use cip_mol::Molecule;
use std::alloc::{AllocError, Global};

/// The graph of a molecule: its atoms, then its implicit hydrogens. It takes time linear in atoms, bonds and hydrogens.
pub fn graph_of(alloc: Global, molecule: &Molecule) -> Result<Graph, AllocError>
    ensures { IfOk result (λ graph. graph ≡ graph_of molecule.now) }
{
    let drawn = molecule.atoms().len();
    let Ok(surroundings) = surroundings_of(alloc, molecule) else {
        return Err(AllocError);
    };
    let further = hydrogen_count(&surroundings);
    let Ok(vertices) = vertices_of(alloc, molecule, &surroundings, further) else {
        return Err(AllocError);
    };
    match edges_of(alloc, molecule, &surroundings, further) {
        Ok(edges) => Graph::new(alloc, vertices, edges, drawn as u32),
        Err(error) => Err(error),
    }
}

// The vertices of a molecule's graph.
ghost use Rattle.std.specs.Prelude.{◌≡◌, ◌<◌, ◌≤◌, ◌+◌, ◌^◌, ◌++◌, IfOk, length, map, replicate, vec_capacity, vec_len};
ghost use Rattle.std.specs.List.{range_with_len};
ghost use Rattle.cip_digraph.specs.graph.DrawnGraph.{atom_vertex, hydrogen};
ghost use Rattle.cip_hydro.specs.ValenceState.{surroundings_of};

use crate::valence_state::ValenceState;
use cip_digraph::Vertex;
use cip_mol::{Atom, Molecule};
use std::alloc::{AllocError, Global};

/// An implicit hydrogen.
const HYDROGEN: Vertex = Vertex {
    z: 1,
    isotope: 0,
    charge: 0,
    lone: false,
};

/// The atoms of a molecule, and n hydrogens.
pub fn vertices_of(
    alloc: Global,
    molecule: &Molecule,
    surroundings: &[ValenceState],
    further: usize,
) -> Result<Vec<Vertex>, AllocError>
    requires around { surroundings.now ≡ surroundings_of molecule.now }
    requires few { length surroundings.now + further < 2 ^ 32 }
    ensures { IfOk result
        (λ vertices. vertices.items
        ≡ map (atom_vertex molecule.now) (range_with_len 0 (length molecule.now.atoms))
        ++ replicate further hydrogen) }
{
    let Ok(mut vertices) = Vec::with_capacity(alloc, surroundings.len() + further) else {
        return Err(AllocError);
    };
    // there is room for all of them
    for (number, atom) in molecule.atoms().iter().enumerate() {
        vertices.push_reserved(atom_vertex(atom, surroundings[number].lone));
    }
    push_hydrogens(&mut vertices, further);
    Ok(vertices)
}

fn atom_vertex(atom: &Atom, lone: bool) -> Vertex
    ensures { result ≡ record { z = atom.now.z; isotope = atom.now.isotope; charge = atom.now.charge; lone = lone } }
{
    Vertex {
        z: atom.z,
        isotope: atom.isotope,
        charge: atom.charge,
        lone,
    }
}

// There is room for n.
fn push_hydrogens(vertices: &mut Vec<Vertex>, count: usize)
    requires { vec_len vertices.old + count ≤ vec_capacity vertices.old }
    ensures { vertices.new.items ≡ vertices.old.items ++ replicate count hydrogen }
{
    for _ in 0..count {
        vertices.push_reserved(HYDROGEN);
    }
}

// The edges of a molecule's graph.
ghost use Rattle.std.specs.Prelude.{◌≡◌, ◌<◌, ◌≤◌, ◌+◌, ◌^◌, ◌++◌, [], IfOk, length, map, replicate, vec_capacity, vec_len};
ghost use Rattle.cip_digraph.specs.graph.DrawnGraph.{bond_edge, hydrogen_edges};
ghost use Rattle.cip_hydro.specs.Carriers.{carriers_from};
ghost use Rattle.cip_hydro.specs.ValenceState.{counted_by, surroundings_of};

use crate::valence_state::ValenceState;
use cip_digraph::Edge;
use cip_mol::{Bond, Molecule};
use std::alloc::{AllocError, Global};

/// The bonds of a molecule, and those of n hydrogens, which these atoms carry.
pub fn edges_of(
    alloc: Global,
    molecule: &Molecule,
    surroundings: &[ValenceState],
    further: usize,
) -> Result<Vec<Edge>, AllocError>
    requires around { surroundings.now ≡ surroundings_of molecule.now }
    requires further { further ≡ length (carriers_from 0 surroundings.now) }
    requires few { length surroundings.now + further < 2 ^ 32 }
    ensures { IfOk result
        (λ edges. edges.items
        ≡ map (bond_edge molecule.now) molecule.now.bonds
        ++ hydrogen_edges (length molecule.now.atoms) (carriers_from 0 surroundings.now)) }
{
    let Ok(mut edges) = Vec::with_capacity(alloc, molecule.bonds().len() + further) else {
        return Err(AllocError);
    };
    push_bonds(&mut edges, molecule, surroundings);
    push_hydrogens(&mut edges, surroundings.len() as u32, surroundings);
    Ok(edges)
}

// There is room for the bonds.
fn push_bonds(edges: &mut Vec<Edge>, molecule: &Molecule, surroundings: &[ValenceState])
    requires around { surroundings.now ≡ surroundings_of molecule.now }
    requires none { edges.old.items ≡ [] }
    requires empty { vec_len edges.old ≡ 0 }
    requires room { length molecule.now.bonds ≤ vec_capacity edges.old }
    ensures value { edges.new.items ≡ map (bond_edge molecule.now) molecule.now.bonds }
    ensures count { vec_len edges.new ≡ length molecule.now.bonds }
    ensures room { vec_capacity edges.new ≡ vec_capacity edges.old }
{
    for bond in molecule.bonds() {
        edges.push_reserved(bond_edge(bond, surroundings));
    }
}

fn bond_edge(bond: &Bond, surroundings: &[ValenceState]) -> Edge
    requires a { bond.now.a < length surroundings.now }
    requires b { bond.now.b < length surroundings.now }
    ensures { result
        ≡ record {
          a = bond.now.a;
          b = bond.now.b;
          order = bond.now.order;
          counted = counted_by surroundings.now bond.now;
        } }
{
    Edge {
        a: bond.a,
        b: bond.b,
        order: bond.order,
        counted: is_counted(bond, surroundings),
    }
}

fn is_counted(bond: &Bond, surroundings: &[ValenceState]) -> bool
    requires a { bond.now.a < length surroundings.now }
    requires b { bond.now.b < length surroundings.now }
    ensures { result ≡ counted_by surroundings.now bond.now }
{
    let neglected = surroundings[bond.a as usize].is_neglected
        || surroundings[bond.b as usize].is_neglected;
    bond.order >= 2 && !neglected
}

// Adds the bonds of hydrogens, of which the first has this number. There is room for them.
fn push_hydrogens(edges: &mut Vec<Edge>, first: u32, surroundings: &[ValenceState])
    requires atoms { length surroundings.now < 2 ^ 32 }
    requires few { first + length (carriers_from 0 surroundings.now) < 2 ^ 32 }
    requires room { vec_len edges.old + length (carriers_from 0 surroundings.now) ≤ vec_capacity edges.old }
    ensures { edges.new.items ≡ edges.old.items ++ hydrogen_edges first (carriers_from 0 surroundings.now) }
{
    let mut next = first;
    for (atom, around) in surroundings.iter().enumerate() {
        push_carried(edges, next, atom as u32, around.hydrogens);
        next += around.hydrogens;
    }
}

// Adds the bonds of n hydrogens of an atom.
fn push_carried(edges: &mut Vec<Edge>, first: u32, carrier: u32, times: u32)
    requires few { first + times < 2 ^ 32 }
    requires room { vec_len edges.old + times ≤ vec_capacity edges.old }
    ensures value { edges.new.items ≡ edges.old.items ++ hydrogen_edges first (replicate times carrier) }
    ensures count { vec_len edges.new ≡ vec_len edges.old + times }
    ensures room { vec_capacity edges.new ≡ vec_capacity edges.old }
{
    for place in 0..times {
        edges.push_reserved(Edge {
            a: carrier,
            b: first + place,
            order: 1,
            counted: false,
        });
    }
}

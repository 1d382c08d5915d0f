// What is around each atom of a molecule.
ghost use Rattle.std.specs.Prelude.{◌≡◌, ◌<◌, ◌≤◌, ◌*◌, All, IfOk, length, map, sum};
ghost use Rattle.cip_hydro.specs.Carriers.{carriers_from, HasFew};
ghost use Rattle.cip_hydro.specs.ValenceState.{surroundings_at, surroundings_of};

use crate::valence::{has_lone_pair, hydrogens, is_neglected};
use cip_mol::{Bond, Molecule};
use std::alloc::{AllocError, Global};

/// What is around an atom.
#[derive(Clone, Copy)]
pub struct ValenceState {
    /// How many implicit hydrogens it carries.
    pub hydrogens: u32,
    /// It has a lone pair that can be a ligand.
    pub lone: bool,
    /// Its multiple bonds stand for no duplicates.
    pub is_neglected: bool,
}

/// What is around each atom.
pub fn surroundings_of(alloc: Global, molecule: &Molecule) -> Result<Vec<ValenceState>, AllocError>
    ensures value { IfOk result (λ all. all.items ≡ surroundings_of molecule.now) }
    ensures few { IfOk result (λ all. All HasFew all.items) }
{
    let count = molecule.atoms().len();
    let Ok(mut all) = Vec::with_capacity(alloc, count) else {
        return Err(AllocError);
    };
    for atom in 0..count as u32 {
        all.push_reserved(surroundings_at(molecule, atom));
    }
    Ok(all)
}

fn surroundings_at(molecule: &Molecule, number: u32) -> ValenceState
    requires { number < length molecule.now.atoms }
    ensures value { result ≡ surroundings_at molecule.now number }
    ensures few { HasFew result }
{
    let atom = &molecule.atoms()[number as usize];
    let orders = order_sum(molecule.bonds_at(number));
    let degree = molecule.neighbours(number).len() as u32;
    let hydrogens = hydrogens(atom, orders);
    let lone = has_lone_pair(atom, orders, hydrogens);
    ValenceState {
        hydrogens,
        lone,
        is_neglected: is_neglected(atom.z, degree + hydrogens, lone),
    }
}

fn order_sum(bonds: &[Bond]) -> u32
    requires { length bonds.now ≤ 32768 }
    ensures { result ≡ sum (map (λ bond. bond.order) bonds.now) }
{
    let mut orders = 0;
    for bond in bonds {
        orders += u32::from(bond.order);
    }
    orders
}

/// How many hydrogens atoms with these surroundings carry.
pub fn hydrogen_count(surroundings: &[ValenceState]) -> usize
    requires atoms { length surroundings.now ≤ 16384 }
    requires each { All HasFew surroundings.now }
    ensures value { result ≡ length (carriers_from 0 surroundings.now) }
    ensures few { result ≤ 255 * length surroundings.now }
{
    let mut count = 0;
    for around in surroundings {
        count += around.hydrogens as usize;
    }
    count
}

// What is around an atom: its implicit hydrogens, its lone pair, and whether its multiple bonds are neglected.
ghost use Rattle.std.specs.Prelude.{◌≡◌, ◌≤◌, ◌+◌, Some};
ghost use Rattle.cip_elem.specs.Symbols.{IsElement};
ghost use Rattle.cip_mol.specs.Ranges.{IsAtom};
ghost use Rattle.cip_digraph.specs.graph.Hydrogens.{radical_electrons, free_valence, hydrogens};
ghost use Rattle.cip_digraph.specs.graph.LonePairs.{leaves_pair, lone_pair};
ghost use Rattle.cip_digraph.specs.graph.Neglected.{neglects};

use cip_elem::{outer, valences};
use cip_mol::Atom;

/// How many implicit hydrogens an atom carries whose bond orders have this sum.
pub fn hydrogens(atom: &Atom, orders: u32) -> u32
    requires atom { IsAtom atom.now }
    requires few { orders ≤ 98304 }
    ensures value { result ≡ hydrogens atom.now orders }
    ensures few { result ≤ 255 }
{
    match atom.valence_mark {
        0 => free_valence(
            valences(atom.z, atom.charge),
            orders + radical_electrons(atom.radical),
        ),
        15 => 0,
        stated => u32::from(stated).saturating_sub(orders),
    }
}

fn radical_electrons(code: u8) -> u32
    ensures value { result ≡ radical_electrons code }
    ensures few { result ≤ 2 }
{
    match code {
        1 | 3 => 2,
        2 => 1,
        _ => 0,
    }
}

// What the least valence that takes in as much as is used leaves free.
fn free_valence(valences: &[u8], used: u32) -> u32
    ensures value { result ≡ free_valence valences.now used }
    ensures few { result ≤ 255 }
{
    for valence in valences {
        if used <= u32::from(*valence) {
            return u32::from(*valence) - used;
        }
    }
    0
}

/// Whether an atom has a lone pair that can be a ligand, by the sum of its bond orders and its implicit hydrogens.
pub fn has_lone_pair(atom: &Atom, orders: u32, hydrogens: u32) -> bool
    requires atom { IsAtom atom.now }
    requires orders { orders ≤ 98304 }
    requires hydrogens { hydrogens ≤ 255 }
    ensures { result ≡ lone_pair atom.now orders hydrogens }
{
    let Some(outer) = outer(atom.z) else {
        return false;
    };
    let used = orders + hydrogens + radical_electrons(atom.radical);
    leaves_pair(u32::from(outer), atom.charge, used)
}

// Whether two of the outer electrons are left, less the charge, when n are used.
fn leaves_pair(outer: u32, charge: i8, used: u32) -> bool
    requires outer { outer ≤ 8 }
    requires used { used ≤ 100000 }
    ensures { result ≡ leaves_pair (Some outer) charge used }
{
    let charges = u32::from(charge.unsigned_abs());
    if charge < 0 {
        outer + charges == used + 2
    } else {
        outer == charges + used + 2
    }
}

/// Whether the multiple bonds of an element are neglected, by its number of bonds with those to hydrogens, and whether
/// it has a lone pair.
pub fn is_neglected(z: u8, edges: u32, lone: bool) -> bool
    requires element { IsElement z }
    requires few { edges ≤ 98304 }
    ensures { result ≡ neglects z edges lone }
{
    outer(z).is_some() && edges + u32::from(lone) >= 4
}

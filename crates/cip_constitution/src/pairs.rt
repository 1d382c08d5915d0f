// Each two ligands of a root, by their vertices.
ghost use Rattle.std.specs.Prelude.{◌≡◌, ◌≤◌, ◌+◌, ◌++◌, length, flat_map, vec_capacity};
ghost use Rattle.cip_constitution.specs.Pairs.{pair_with, pairs_of};

use cip_mol::Ligand;

/// Two neighbours of a root whose branches are asked about.
#[derive(Clone, Copy)]
pub struct VertexPair {
    pub a: u32,
    pub b: u32,
}

/// Each two different vertices of ligands, the earlier one first.
pub fn ligand_pairs(ligands: &[Ligand], pairs: &mut Vec<VertexPair>)
    requires room { length (pairs_of ligands.now) ≤ vec_capacity pairs.old }
    ensures pairs { pairs.new.items ≡ pairs_of ligands.now }
    ensures room { vec_capacity pairs.old ≤ vec_capacity pairs.new }
{
    pairs.clear();
    let mut rest = ligands;
    while let [ligand, others @ ..] = rest {
        if let Ligand::Vertex(a) = ligand {
            pair_with_each(*a, others, pairs);
        }
        rest = others;
    }
}

// Pushes the pairs of a vertex with each of these ligands.
fn pair_with_each(a: u32, ligands: &[Ligand], pairs: &mut Vec<VertexPair>)
    requires room { length pairs.old.items + length (flat_map (pair_with a) ligands.now) ≤ vec_capacity pairs.old }
    ensures pairs { pairs.new.items ≡ pairs.old.items ++ flat_map (pair_with a) ligands.now }
    ensures room { vec_capacity pairs.old ≤ vec_capacity pairs.new }
{
    let mut rest = ligands;
    while let [ligand, others @ ..] = rest {
        pair_with(a, ligand, pairs);
        rest = others;
    }
}

// Pushes the pair of a vertex and a ligand, unless that is a lone pair or the same vertex.
fn pair_with(a: u32, ligand: &Ligand, pairs: &mut Vec<VertexPair>)
    requires room { length pairs.old.items + length (pair_with a ligand.now) ≤ vec_capacity pairs.old }
    ensures pairs { pairs.new.items ≡ pairs.old.items ++ pair_with a ligand.now }
    ensures room { vec_capacity pairs.old ≤ vec_capacity pairs.new }
{
    match ligand {
        Ligand::LonePair => {}
        Ligand::Vertex(b) => {
            if a != *b {
                pairs.push_reserved(VertexPair { a, b: *b });
            }
        }
    }
}

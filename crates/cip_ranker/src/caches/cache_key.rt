// A root as it was asked about, but for the senses of units.
ghost use Rattle.std.specs.Prelude.{◌≡◌, true, IfOk};
ghost use Rattle.cip_ranker.specs.Keeping.{kept_of};

use crate::two_sphere::two_spheres::RootQuery;
use cip_digraph::{Graph, Positions};
use cip_mol::{Ligand, Ligands};
use cip_rank::Rules;
use std::alloc::{AllocError, Global};

/// A root with its ligands, the graph that it is in, and by which wording it was ranked.
#[derive(Drop)]
pub struct CacheKey {
    pub rules: Rules,
    pub graph: Graph,
    pub positions: Positions,
    pub root: u32,
    pub ligands: Ligands,
}

impl CacheKey {
    /// The root that is asked about.
    pub fn of(alloc: Global, query: &RootQuery<'_, '_>) -> Result<CacheKey, AllocError>
        ensures { IfOk result (λ kept. kept ≡ kept_of query.now.setting.now query.now.root query.now.ligands.now) }
    {
        let setting = query.setting;
        let Ok(positions) = setting.positions().copy(alloc) else {
            return Err(AllocError);
        };
        let Ok(graph) = setting.graph().copy(alloc) else {
            return Err(AllocError);
        };
        Ok(CacheKey {
            rules: setting.rules(),
            graph,
            positions,
            root: query.root,
            ligands: query.ligands.copy(),
        })
    }

    /// Whether it is this root that is asked about. Any other one mostly differs already by its vertex.
    pub fn is_of(&self, query: &RootQuery<'_, '_>) -> bool
        ensures { result ≡ true → self.now ≡ kept_of query.now.setting.now query.now.root query.now.ligands.now }
    {
        let setting = query.setting;
        self.root == query.root
            && are_same(self.ligands.as_slice(), query.ligands.as_slice())
            && is_same_wording(self.rules, setting.rules())
            && self.graph.is_same(setting.graph())
            && self.positions.is_same(setting.positions())
    }
}

// Whether both are the same wording.
fn is_same_wording(one: Rules, other: Rules) -> bool
    ensures { result ≡ true → one ≡ other }
{
    match (one, other) {
        (Rules::Wording2013, Rules::Wording2013) | (Rules::Wording2018, Rules::Wording2018) => true,
        _ => false,
    }
}

// Whether both are the same ligand.
fn is_same(one: Ligand, other: Ligand) -> bool
    ensures { result ≡ true → one ≡ other }
{
    match (one, other) {
        (Ligand::Vertex(a), Ligand::Vertex(b)) => a == b,
        (Ligand::LonePair, Ligand::LonePair) => true,
        _ => false,
    }
}

// Whether both lists have the same ligands, in the same order.
fn are_same(ligands: &[Ligand], others: &[Ligand]) -> bool
    ensures { result ≡ true → ligands.now ≡ others.now }
{
    let mut rest = ligands;
    let mut more = others;
    while let [one, behind @ ..] = rest {
        match more {
            [other, later @ ..] if is_same(*one, *other) => {
                rest = behind;
                more = later;
            }
            _ => return false,
        }
    }
    more.is_empty()
}

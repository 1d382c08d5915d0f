// Each two ligands of each end of a site.
ghost use Rattle.std.specs.Prelude.{◌≡◌, ◌++◌, ◌∷◌, [], IfOk, OnOk, map};
ghost use Rattle.cip_digraph.specs.units.Ends.{end_at};
ghost use Rattle.cip_undefined.specs.Pairs.{pair, pairs_at, pairs_of};

use cip_mol::{Ligand, Ligands, Site};
use std::alloc::{AllocError, Global};

/// Two ligands at an end.
#[derive(Clone, Copy)]
pub(crate) struct Pair {
    pub(crate) at: u32,
    pub(crate) one: Ligand,
    pub(crate) other: Ligand,
}

impl Pair {
    /// These two alone.
    pub(crate) fn ligands(&self, alloc: Global) -> Ligands
        ensures { result ≡ self.now.one ∷ self.now.other ∷ [] }
    {
        let mut ligands = Ligands::new(alloc);
        ligands.push(self.one);
        ligands.push(self.other);
        ligands
    }
}

/// Each two ligands of each end.
pub(crate) fn pairs_of(alloc: Global, site: &Site) -> Result<Vec<Pair>, AllocError>
    ensures { IfOk result (λ pairs. pairs.items ≡ pairs_of site.now) }
{
    let mut pairs = Vec::new(alloc);
    match site {
        Site::Centre { at, ligands } => push_pairs(*at, ligands.as_slice(), &mut pairs)?,
        Site::Bond {
            a,
            b,
            first,
            second,
        }
        | Site::Axis {
            a,
            b,
            first,
            second,
            ..
        } => {
            push_pairs(*a, first.as_slice(), &mut pairs)?;
            push_pairs(*b, second.as_slice(), &mut pairs)?;
        }
    }
    Ok(pairs)
}

fn push_pairs(at: u32, ligands: &[Ligand], pairs: &mut Vec<Pair>) -> Result<(), AllocError>
    ensures { OnOk result (pairs.new.items ≡ pairs.old.items ++ pairs_at (end_at at ligands.now)) }
{
    for (place, one) in ligands.iter().enumerate() {
        push_pairs_of(at, *one, &ligands[place + 1..], pairs)?;
    }
    Ok(())
}

// A ligand with each of the others.
fn push_pairs_of(
    at: u32,
    one: Ligand,
    others: &[Ligand],
    pairs: &mut Vec<Pair>,
) -> Result<(), AllocError>
    ensures { OnOk result (pairs.new.items ≡ pairs.old.items ++ map (pair at one) others.now) }
{
    for other in others {
        pairs.push(Pair {
            at,
            one,
            other: *other,
        })?;
    }
    Ok(())
}

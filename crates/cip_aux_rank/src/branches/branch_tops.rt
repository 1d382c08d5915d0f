// The neighbours of a node that are asked about.
ghost use Rattle.std.specs.Prelude.{◌≡◌, ◌<◌, ◌^◌, ◌∷◌, ◌++◌, [], filter, length};
ghost use Rattle.std.specs.List.{list_any};
ghost use Rattle.cip_aux_rank.specs.LigandBranches.{is_ligand, asked_tops, branch_of};

use cip_partition::ReservedVec;
use cip_rank::Table;
use cip_rank::path_flags::parent_of;

// Whether a node is among the ligands.
fn is_asked(ligands: &[Option<u32>], node: u32) -> bool
    ensures { result ≡ list_any (is_ligand node) ligands.now }
{
    for ligand in ligands {
        if *ligand == Some(node) {
            return true;
        }
    }
    false
}

// Pushes a node that is among the ligands.
fn push_if_asked(tops: &mut ReservedVec<u32>, ligands: &[Option<u32>], node: u32)
    requires { length tops.old.items < tops.old.room }
    ensures { tops.new ≡ record tops.old {
      items = tops.old.items ++ filter (λ top. list_any (is_ligand top) ligands.now) (node ∷ []);
    } }
{
    if is_asked(ligands, node) {
        tops.push(node);
    }
}

/// Puts the neighbours of a node that are asked about into a column.
pub fn fill_tops(tops: &mut ReservedVec<u32>, table: &Table, node: u32, ligands: &[Option<u32>])
    requires node { node < length table.now.parents }
    requires room { length table.now.parents < tops.old.room }
    ensures { tops.new ≡ record tops.old { items = asked_tops table.now.parents ligands.now node } }
{
    tops.clear();
    let (first, past) = table.children(node);
    for child in first..past {
        push_if_asked(tops, ligands, child);
    }
    if node > 0 {
        push_if_asked(tops, ligands, parent_of(table, node));
    }
}

/// The branch of a ligand.
pub fn branch_of(tops: &[u32], ligand: u32) -> Option<u32>
    requires { length tops.now < 2 ^ 32 }
    ensures { result ≡ branch_of tops.now ligand }
{
    for branch in 0..tops.len() as u32 {
        if tops[branch as usize] == ligand {
            return Some(branch);
        }
    }
    None
}

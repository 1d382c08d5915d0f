// Ligands that no rule distinguishes.
ghost use Rattle.cip_laws.specs.TieLaw.{LonePairsTieWithNothing, TiesAreSameTrees};

/// On a whole digraph two ligands tie by all rules exactly where their branches are the same tree, node by node with
/// the same keys and the same kind of descriptor.
pub fn ties_are_same_trees()
    ensures { TiesAreSameTrees }
{}

/// A lone pair ties with no ligand.
pub fn lone_pairs_tie_with_nothing()
    ensures { LonePairsTieWithNothing }
{}

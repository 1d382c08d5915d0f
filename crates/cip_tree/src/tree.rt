// The digraph of a root in boxes.
use cip_digraph::NodeKind;
use std::marker::Model;

/// A node of a digraph, and the branches below it, in the order of the digraph.
#[derive(Drop)]
pub struct PlainTree {
    pub(crate) kind: NodeKind,
    // of a real node from its own vertex back to the root, of a duplicate that of its carrier
    pub(crate) path: Vec<u32>,
    pub(crate) vertex: u32,
    pub(crate) atomic: u32,
    pub(crate) mass: u32,
    pub(crate) as_printed: u32,
    pub(crate) as_corrected: u32,
    pub(crate) children: Vec<PlainTree>,
}

impl Model for PlainTree {
    ghost use Rattle.cip_tree.specs.Branches.{Branch, gathered, node_count};
    ghost use Rattle.cip_tree.specs.BranchCode.{branch_code};
    ghost use Rattle.cip_tree.specs.Sizes.{children_smaller};
    ghost use Rattle.std.specs.Coded.{codes};
    ghost use Rattle.std.proofs.Common.{arith};

    ghost Value = { Branch };

    ghost coded = { branch_code (Prim.hlevel (codes)) };

    ghost view = { λ columns. record {
      label = record {
        node = record { kind = columns.kind; path = columns.path.items; vertex = columns.vertex };
        atomic = columns.atomic;
        mass = columns.mass;
        as_printed = columns.as_printed;
        as_corrected = columns.as_corrected;
      };
      below = gathered columns.children.items;
    } };

    ghost size = { λ branch. node_count branch };

    ghost size_decreases = { λ columns _. omega (arith, children_smaller columns.children.items) };
}

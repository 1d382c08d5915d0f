// The nodes of a tree in boxes, sphere after sphere.
ghost use Rattle.std.specs.Prelude.{◌≡◌, ◌<◌, ◌≤◌, ◌+◌, ◌^◌, ◌++◌, IfOk, OnOk, drop, length};
ghost use Rattle.cip_digraph.specs.rules.Keys.{counterpart as path_of_counterpart};
ghost use Rattle.cip_tree.specs.Branches.{children as branches_below, node_count};
ghost use Rattle.cip_tree.specs.FlatTree.{hung, next_sphere, placed as placed_in, number_of as number_at, counterpart_in, told_in, is_at as stands_at};

use crate::paths::counterpart;
use crate::tree::PlainTree;
use cip_digraph::{NodeData, NodeKind};
use std::alloc::{AllocError, Global};
use std::marker::Model;

/// A node with the number of its parent.
#[derive(Drop)]
pub struct Placed<'a> {
    parent: u32,
    branch: &'a PlainTree,
}

impl<'a> Model for Placed<'a> {
    ghost use Rattle.std.specs.Coded.{codes};
    ghost use Rattle.cip_tree.specs.BranchCode.{placed_code};
    ghost use Rattle.cip_tree.specs.FlatTree as flat;

    ghost Value = { flat.Placed };

    ghost coded = { placed_code (Prim.hlevel (codes)) };

    ghost view = { λ node. record { parent = node.parent; branch = node.branch.now } };
}

impl<'a> Placed<'a> {
    pub fn parent(&self) -> u32
        ensures { result ≡ self.now.parent }
    {
        self.parent
    }

    fn branch(&self) -> &'a PlainTree
        ensures { result.now ≡ self.now.branch }
    {
        self.branch
    }
}

// Adds the children of a node.
fn place_children<'a>(
    nodes: &mut Vec<Placed<'a>>,
    number: u32,
    branch: &'a PlainTree,
) -> Result<(), AllocError>
    ensures { OnOk result (nodes.new.items ≡ nodes.old.items ++ hung number (branches_below branch.now)) }
{
    for child in branch.children() {
        nodes.push(Placed {
            parent: number,
            branch: child,
        })?;
    }
    Ok(())
}

// Adds the children of the nodes from a first one on.
fn place_sphere<'a>(nodes: &mut Vec<Placed<'a>>, first: u32, past: u32) -> Result<(), AllocError>
    requires ordered { first ≤ past }
    requires past { past ≡ length nodes.old.items }
    ensures { OnOk result (nodes.new.items
        ≡ nodes.old.items ++ next_sphere first (drop first nodes.old.items)) }
{
    for number in first..past {
        let branch = nodes[number as usize].branch();
        place_children(nodes, number, branch)?;
    }
    Ok(())
}

/// All nodes.
pub fn place_all(alloc: Global, tree: &PlainTree) -> Result<Vec<Placed<'_>>, AllocError>
    requires { node_count tree.now < 2 ^ 32 }
    ensures { IfOk result (λ nodes. nodes.items ≡ placed_in tree.now) }
{
    let mut nodes = Vec::new(alloc);
    nodes.push(Placed {
        parent: 0,
        branch: tree,
    })?;
    let mut first = 0;
    for _ in 0..tree.height() {
        let past = nodes.len() as u32;
        place_sphere(&mut nodes, first, past)?;
        first = past;
    }
    Ok(nodes)
}

impl PlainTree {
    // It is the real node of this path.
    fn is_at(&self, path: &[u32]) -> bool
        ensures { result ≡ stands_at path.now self.now.label.node }
    {
        self.kind == NodeKind::Real && self.path.as_slice() == path
    }

    // The number of the real node that stands for what a duplicate repeats.
    fn counterpart(&self, alloc: Global, nodes: &[Placed<'_>]) -> Result<Option<u32>, AllocError>
        requires { length nodes.now < 2 ^ 32 }
        ensures { IfOk result (λ number. number ≡ counterpart_in nodes.now self.now.label.node) }
    {
        match self.kind {
            NodeKind::Real => Ok(None),
            NodeKind::Closure => self.number_of_counterpart(alloc, nodes),
            NodeKind::Multiple => self.number_of_counterpart(alloc, nodes),
            NodeKind::Delocalised => Ok(None),
        }
    }

    fn number_of_counterpart(
        &self,
        alloc: Global,
        nodes: &[Placed<'_>],
    ) -> Result<Option<u32>, AllocError>
        requires { length nodes.now < 2 ^ 32 }
        ensures { IfOk result (λ number. number ≡ number_at nodes.now (path_of_counterpart self.now.label.node)) }
    {
        let path = counterpart(alloc, &self.path, self.vertex)?;
        Ok(number_of(nodes, &path))
    }
}

fn place_of(nodes: &[Placed<'_>], path: &[u32]) -> Option<usize>
    ensures { result ≡ number_at nodes.now path.now }
{
    nodes.iter().position(|node| node.branch().is_at(path))
}

// The number of the real node of a path.
fn number_of(nodes: &[Placed<'_>], path: &[u32]) -> Option<u32>
    requires { length nodes.now < 2 ^ 32 }
    ensures { result ≡ number_at nodes.now path.now }
{
    match place_of(nodes, path) {
        Some(place) => Some(place as u32),
        None => None,
    }
}

/// What is known of a node among all nodes.
pub fn tell(alloc: Global, nodes: &[Placed<'_>], node: &Placed<'_>) -> Result<NodeData, AllocError>
    requires { length nodes.now < 2 ^ 32 }
    ensures { IfOk result (λ node_data. node_data ≡ told_in nodes.now node.now) }
{
    let branch = node.branch();
    Ok(NodeData {
        parent: node.parent(),
        kind: branch.kind,
        vertex: branch.vertex,
        counterpart: branch.counterpart(alloc, nodes)?,
        atomic: branch.atomic,
        mass: branch.mass,
        as_printed: branch.as_printed,
        as_corrected: branch.as_corrected,
    })
}

// A digraph in boxes as the list of its nodes.
ghost use Rattle.std.specs.Prelude.{◌≡◌, ◌<◌, ◌^◌, IfOk, length, map};
ghost use Rattle.cip_digraph.specs.declared.nodes.NodeData.{NodeData as Entry};
ghost use Rattle.cip_tree.specs.Branches.{node_count};
ghost use Rattle.cip_tree.specs.FlatTree.{flat_of, told_in};
ghost use Rattle.cip_tree.specs.InOrder.{AreInOrder};

use crate::placing::{Placed, place_all, tell};
use crate::tree::PlainTree;
use cip_digraph::{NodeData, NodeKind, Nodes};
use cip_rank::{Rules, Table};
use std::alloc::{AllocError, Global};
use std::marker::Model;

/// The nodes of a tree in boxes, numbered in order of spheres, the children of each in their order.
#[derive(Drop)]
pub struct Flat {
    table: Table,
    nodes: Vec<NodeData>,
}

impl Model for Flat {
    ghost use Rattle.std.specs.Prelude.{◌≡◌, List};
    ghost use Rattle.cip_digraph.specs.declared.nodes.NodeData.{NodeData as Entry};
    ghost use Rattle.cip_digraph.specs.digraph.NodeList.{parents_of};

    ghost Value = { List Entry };

    ghost view = { λ columns. columns.nodes.items };

    ghost invariant = { λ columns. columns.table.parents ≡ parents_of columns.nodes.items };
}

impl PlainTree {
    /// The nodes as a list.
    pub fn flat(&self) -> Result<Flat, AllocError>
        requires { node_count self.now < 2 ^ 32 }
        ensures { IfOk result (λ nodes. nodes ≡ flat_of self.now) }
    {
        let alloc = *self.children.allocator();
        let placed = place_all(alloc, self)?;
        Ok(Flat {
            table: table_of(alloc, &placed)?,
            nodes: node_data(alloc, &placed)?,
        })
    }
}

fn node_data(alloc: Global, placed: &[Placed<'_>]) -> Result<Vec<NodeData>, AllocError>
    requires { length placed.now < 2 ^ 32 }
    ensures { IfOk result (λ nodes. nodes.items ≡ map (told_in placed.now) placed.now) }
{
    let mut nodes = Vec::new(alloc);
    for node in placed {
        nodes.push(tell(alloc, placed, node)?)?;
    }
    Ok(nodes)
}

// How nodes in order hang.
fn table_of(alloc: Global, placed: &[Placed<'_>]) -> Result<Table, AllocError>
    requires few { length placed.now < 2 ^ 32 }
    requires in_order { AreInOrder placed.now }
    ensures { IfOk result (λ table. table.parents ≡ map (λ node. node.parent) placed.now) }
{
    let mut table = Table::reserve(alloc, placed.len() as u32)?;
    table.push(None);
    let mut rest = &placed[1..];
    while let [node, more @ ..] = rest {
        table.push(Some(node.parent()));
        rest = more;
    }
    Ok(table)
}

impl Nodes for Flat {
    ghost nodes = { λ flat. flat };

    fn table(&self) -> &Table {
        &self.table
    }

    fn kind(&self, node: u32) -> NodeKind {
        self.nodes[node as usize].kind
    }

    fn vertex(&self, node: u32) -> Option<u32> {
        let node_data = &self.nodes[node as usize];
        match node_data.kind {
            NodeKind::Real => Some(node_data.vertex),
            NodeKind::Closure => Some(node_data.vertex),
            NodeKind::Multiple => Some(node_data.vertex),
            NodeKind::Delocalised => None,
        }
    }

    fn counterpart(&self, node: u32) -> Option<u32> {
        self.nodes[node as usize].counterpart
    }

    fn atom_key(&self, node: u32) -> u32 {
        self.nodes[node as usize].atomic
    }

    fn distance_key(&self, node: u32, rules: Rules) -> u32 {
        match rules {
            Rules::Wording2013 => self.nodes[node as usize].as_printed,
            Rules::Wording2018 => self.nodes[node as usize].as_corrected,
        }
    }

    fn mass_key(&self, node: u32) -> u32 {
        self.nodes[node as usize].mass
    }
}

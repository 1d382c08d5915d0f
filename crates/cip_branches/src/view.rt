// The neighbours of nodes that lead away from the one that a tree is seen from.
ghost use Rattle.std.specs.Prelude.{◌≡◌, ◌<◌, ◌≤◌, ◌+◌, [], ◌∷◌, length};
ghost use Rattle.cip_rank.specs.Tree.{children_of};
ghost use Rattle.cip_branches.specs.ViewedTree.{kept_off, kids_around};
ghost use Rattle.cip_branches.specs.SphereColumns.{with_nodes};

use crate::growth::grow::flag_at;
use crate::growth::spheres::Spheres;
use cip_rank::Table;

/// A tree, and flags of the nodes on the way from its root to the one that it is seen from. Without flags it is seen
/// from the root.
#[derive(Drop)]
pub struct ViewedTree<'a> {
    pub table: &'a Table,
    pub way: &'a [bool],
}

impl Spheres {
    // Adds a node below a place, unless it has a flag.
    fn push_if_off(&mut self, way: &[bool], node: u32, branch: u32, parent_place: u32, number: u32)
        requires { length self.old.place_tree.place_parents + length (kept_off way.now (node ∷ [])) ≤ self.old.place_tree.room }
        ensures { self.new ≡ with_nodes (kept_off way.now (node ∷ [])) branch parent_place number self.old }
    {
        if !flag_at(way, node) {
            self.push_place(node, branch, parent_place, number);
        }
    }

    // Adds those children of a node that are off the way.
    fn push_children_off_path(
        &mut self,
        around: &ViewedTree<'_>,
        node: u32,
        branch: u32,
        parent_place: u32,
        number: u32,
    )
        requires node { node < length around.now.table.now.parents }
        requires room { length self.old.place_tree.place_parents + length (kept_off around.now.way.now
            (children_of around.now.table.now.parents node)) ≤ self.old.place_tree.room }
        ensures { self.new ≡ with_nodes (kept_off around.now.way.now (children_of around.now.table.now.parents node))
            branch parent_place number self.old }
    {
        let (first, past) = around.table.children(node);
        for child in first..past {
            self.push_if_off(around.way, child, branch, parent_place, number);
        }
    }

    // Adds the children of a node.
    fn push_children(
        &mut self,
        table: &Table,
        node: u32,
        branch: u32,
        parent_place: u32,
        number: u32,
    )
        requires node { node < length table.now.parents }
        requires room { length self.old.place_tree.place_parents + length (children_of table.now.parents node) ≤ self.old.place_tree.room }
        ensures { self.new ≡ with_nodes (children_of table.now.parents node) branch parent_place number self.old }
    {
        let (first, past) = table.children(node);
        for child in first..past {
            self.push_place(child, branch, parent_place, number);
        }
    }

    /// Adds the neighbours of a node that lead away, below a place.
    pub(crate) fn push_neighbours(
        &mut self,
        around: &ViewedTree<'_>,
        node: u32,
        branch: u32,
        parent_place: u32,
        number: u32,
    )
        requires node { node < length around.now.table.now.parents }
        requires room { length self.old.place_tree.place_parents + length (kids_around around.now.table.now.parents around.now.way.now
            node) ≤ self.old.place_tree.room }
        ensures { self.new ≡ with_nodes (kids_around around.now.table.now.parents around.now.way.now node) branch parent_place
            number self.old }
    {
        if flag_at(around.way, node) {
            self.push_children_off_path(around, node, branch, parent_place, number);
            if let Some(parent) = around.table.parent(node) {
                self.push_place(parent, branch, parent_place, number);
            }
        } else {
            self.push_children(around.table, node, branch, parent_place, number);
        }
    }
}

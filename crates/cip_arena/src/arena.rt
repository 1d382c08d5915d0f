// The digraph of a root, grown sphere by sphere in memory that was reserved.
ghost use Rattle.std.specs.Prelude.{◌≡◌, ◌<◌, ◌≤◌, ◌+◌, ◌-◌, ℕ, List, [], ◌∷◌, ◌++◌, cond, length, replicate};
ghost use Rattle.std.specs.Prelude.{unwrap_or, IfOk};
ghost use Rattle.cip_rank.specs.Tree.{last_parent};
ghost use Rattle.cip_digraph.specs.digraph.Digraph.{children, digraph};
ghost use Rattle.cip_digraph.specs.digraph.NodeList.{told_at, parents_of};
ghost use Rattle.cip_digraph.specs.digraph.Telling.{node_at};
ghost use Rattle.cip_arena.specs.Walk.{walk, is_above as stands_above, vertex_above as parent_vertex, Keeps};
ghost use Rattle.cip_arena.specs.Making.{with_neighbour, with_edge, with_children, with_sphere};
ghost use Rattle.cip_arena.specs.Making.{edge_size as size_of_edge, node_size as size_of_node, size_upto};
ghost use Rattle.cip_arena.specs.Growth.{Holds, GrownAs};

use crate::ancestors::{find_ancestor, is_above, vertex_above};
use crate::node_data::{
    RealNode, closure_node_data, duplicate_node_data, mass_of, real_node_data, z_of,
};
use crate::sphere_sizes::{duplicate_count, node_size, real_vertex, sphere_size};
use crate::vertex_flags::{clear_flags, flag_vertex};
use cip_digraph::{Edge, Graph, NodeData, NodeKind, Nodes, Positions};
use cip_rank::{Rules, Steps, Table, zip_results};
use std::alloc::{AllocError, Global};
use std::marker::Model;
use std::sync::ledger::Ledger;

/// The nodes of a digraph up to a sphere, with their table and keys.
#[derive(Drop)]
pub struct Arena {
    bound: u32,
    root: u32,
    sphere: u32,
    // the first node of the last sphere
    first: u32,
    table: Table,
    nodes: Vec<NodeData>,
    // of each vertex, whether it may have a node
    present: Vec<bool>,
}

impl Model for Arena {
    ghost use Rattle.cip_arena.specs.Growth.{Growth};

    ghost Value = { Growth };

    ghost use Rattle.cip_arena.specs.Growth.{growth_of, HoldGrowth};

    ghost view = { growth_of };

    ghost invariant = { HoldGrowth };
}

/// What growing answers.
#[derive(Clone, Copy, PartialEq, Eq)]
pub enum Grown {
    /// The next sphere was added.
    Grown,
    /// There is no further node.
    Whole,
    /// The next sphere would pass the bound.
    Over,
}

impl Arena {
    /// No nodes, with room for `bound` of them. All memory is taken here, and none of it is touched before it is used.
    pub fn reserve(alloc: Global, bound: u32) -> Result<Arena, AllocError>
        ensures { IfOk result (λ arena. arena ≡ record { bound = bound; root = 0; sphere = 0; first = 0; nodes = [] }) }
    {
        let room = bound as usize;
        let Ok((nodes, present)) = zip_results(
            Vec::with_capacity(alloc, room),
            Vec::with_capacity(alloc, room),
        ) else {
            return Err(AllocError);
        };
        let Ok(table) = Table::reserve(alloc, bound) else {
            return Err(AllocError);
        };
        Ok(Arena {
            bound,
            root: 0,
            sphere: 0,
            first: 0,
            table,
            nodes,
            present,
        })
    }

    /// Drops all nodes but a new root.
    #[tactic(auto, using(crate::proofs::lemmas::Flagged::first_flagged))]
    pub fn start(&mut self, graph: &Graph, root: u32)
        requires { 0 < self.old.bound }
        ensures holds { (positions : List (List ℕ)) → Holds graph.now positions self.new }
        ensures root { self.new.root ≡ root }
        ensures sphere { self.new.sphere ≡ 0 }
        ensures bound { self.new.bound ≡ self.old.bound }
    {
        let node = NodeData {
            parent: 0,
            kind: NodeKind::Real,
            vertex: root,
            counterpart: None,
            atomic: 6 * z_of(graph, root) as u32,
            mass: mass_of(graph, root),
            as_printed: 0,
            as_corrected: 0,
        };
        self.table.clear();
        self.nodes.clear();
        clear_flags(&mut self.present, graph.vertices().len(), self.bound);
        let _ = self.table.push(None);
        self.nodes.push_reserved(node);
        flag_vertex(&mut self.present, root);
        self.root = root;
        self.sphere = 0;
        self.first = 0;
    }

    /// Adds the next sphere, a step for each node. Where it has none, or would pass the bound, nothing changes.
    pub fn grow<L: Ledger>(
        &mut self,
        graph: &Graph,
        positions: &Positions,
        steps: &mut Steps<L>,
    ) -> Grown
        requires { Holds graph.now positions.now self.old }
        ensures holds { Holds graph.now positions.now self.new }
        ensures fits { length self.new.nodes ≤ self.new.bound }
        ensures answer { GrownAs graph.now positions.now self.old self.new steps.old steps.new result }
    {
        let past = self.len();
        match sphere_size(graph, &self.nodes, self.first, past, self.bound - past) {
            None => Grown::Over,
            Some(0) => Grown::Whole,
            Some(_) => {
                self.make_sphere(graph, positions, past, steps);
                self.first = past;
                self.sphere += 1;
                Grown::Grown
            }
        }
    }

    /// The last sphere.
    pub fn sphere(&self) -> u32
        ensures { result ≡ self.now.sphere }
    {
        self.sphere
    }

    /// How many nodes there are.
    pub fn len(&self) -> u32
        ensures len { result ≡ length self.now.nodes }
        ensures fits { result ≤ self.now.bound }
    {
        self.nodes.len() as u32
    }

    /// The first node of the last sphere.
    pub fn first(&self) -> u32
        ensures { result ≡ self.now.first }
    {
        self.first
    }

    /// How many children a node has in the digraph, those beyond the last sphere too.
    pub fn child_count(&self, graph: &Graph, node: u32) -> u64
        requires { node < length self.now.nodes }
        ensures { (positions : List (List ℕ)) → Holds graph.now positions self.now
            → result ≡ length (children graph.now positions
            (node_at (digraph graph.now positions self.now.root self.now.sphere) node)) }
    {
        node_size(graph, &self.nodes, node)
    }

    // Adds the children of the nodes from `first` to `past`.
    fn make_sphere<L: Ledger>(
        &mut self,
        graph: &Graph,
        positions: &Positions,
        past: u32,
        steps: &mut Steps<L>,
    )
        requires past { past ≡ length self.old.nodes }
        requires room { past + size_upto graph.now self.old.nodes self.old.first (past - self.old.first)
            ≤ self.old.bound }
        requires last { last_parent (parents_of self.old.nodes) ≤ self.old.first }
        requires order { self.old.first ≤ past }
        ensures made { self.new ≡ record self.old {
          nodes = with_sphere graph.now positions.now self.old.nodes self.old.first (past - self.old.first);
        } }
        ensures last { last_parent (parents_of self.new.nodes) ≤ past }
        ensures size { length self.new.nodes
            ≡ length self.old.nodes + size_upto graph.now self.old.nodes self.old.first (past - self.old.first) }
        ensures cost { steps.new + length self.old.nodes ≡ steps.old + length self.new.nodes }
    {
        let first = self.first;
        for node in first..past {
            self.make_children(graph, positions, node, steps);
        }
    }

    // Adds the children of a node; a duplicate has none.
    fn make_children<L: Ledger>(
        &mut self,
        graph: &Graph,
        positions: &Positions,
        node: u32,
        steps: &mut Steps<L>,
    )
        requires within { node < length self.old.nodes }
        requires room { length self.old.nodes + size_of_node graph.now self.old.nodes node ≤ self.old.bound }
        requires last { last_parent (parents_of self.old.nodes) ≤ node }
        ensures made { self.new ≡ record self.old {
          nodes = with_children graph.now positions.now self.old.nodes node;
        } }
        ensures last { last_parent (parents_of self.new.nodes) ≤ node }
        ensures kept { Keeps self.old.nodes self.new.nodes }
        ensures size { length self.new.nodes ≡ length self.old.nodes + size_of_node graph.now self.old.nodes node }
        ensures cost { steps.new + length self.old.nodes ≡ steps.old + length self.new.nodes }
    {
        if let Some(vertex) = real_vertex(&self.nodes[node as usize]) {
            let above = vertex_above(&self.nodes, node);
            let from = RealNode {
                node,
                vertex,
                above,
            };
            for edge in graph.edges_at(vertex) {
                self.make_edge(graph, positions, from, edge, steps);
            }
        }
    }

    // Adds the nodes that an edge of a real node gives: its other end or a ring closure, and duplicates of a multiple
    // bond.
    fn make_edge<L: Ledger>(
        &mut self,
        graph: &Graph,
        positions: &Positions,
        from: RealNode,
        edge: &Edge,
        steps: &mut Steps<L>,
    )
        requires within { from.node < length self.old.nodes }
        requires vertex { (told_at self.old.nodes from.node).vertex ≡ from.vertex }
        requires above { from.above ≡ parent_vertex self.old.nodes from.node }
        requires room { length self.old.nodes + size_of_edge self.old.nodes from.node from.vertex edge.now
            ≤ self.old.bound }
        requires last { last_parent (parents_of self.old.nodes) ≤ from.node }
        ensures made { self.new ≡ record self.old {
          nodes = with_edge graph.now positions.now from.node from.vertex self.old.nodes edge.now;
        } }
        ensures last { last_parent (parents_of self.new.nodes) ≤ from.node }
        ensures kept { Keeps self.old.nodes self.new.nodes }
        ensures size { length self.new.nodes ≡ length self.old.nodes + size_of_edge self.old.nodes from.node
            from.vertex edge.now }
        ensures cost { steps.new + length self.old.nodes ≡ steps.old + length self.new.nodes }
    {
        let stands = self.make_neighbour(graph, from, edge.other_end(from.vertex), steps);
        // Few edges give duplicates, and finding one costs more than this test.
        if edge.counted {
            let node_data = duplicate_node_data(graph, positions, &self.nodes, from, edge, stands);
            self.add_copies(node_data, duplicate_count(edge), steps);
        }
    }

    // Adds the node of a neighbour, a real one or a ring closure, and returns which node stands for the neighbour
    // there.
    fn make_neighbour<L: Ledger>(
        &mut self,
        graph: &Graph,
        from: RealNode,
        other: u32,
        steps: &mut Steps<L>,
    ) -> u32
        requires within { from.node < length self.old.nodes }
        requires vertex { (told_at self.old.nodes from.node).vertex ≡ from.vertex }
        requires above { from.above ≡ parent_vertex self.old.nodes from.node }
        requires room { length self.old.nodes + cond (stands_above self.old.nodes from.node other) 0 1 ≤ self.old.bound }
        requires last { last_parent (parents_of self.old.nodes) ≤ from.node }
        ensures made { self.new ≡ record self.old { nodes = with_neighbour graph.now self.old.nodes from.node other } }
        ensures stands { result ≡ unwrap_or (walk self.old.nodes from.node other) (length self.old.nodes) }
        ensures low { result < length self.new.nodes }
        ensures last { last_parent (parents_of self.new.nodes) ≤ from.node }
        ensures size { length self.new.nodes ≡ length self.old.nodes + cond (stands_above self.old.nodes from.node other) 0
            1 }
        ensures cost { steps.new + length self.old.nodes ≡ steps.old + length self.new.nodes }
    {
        let node = from.node;
        // Nearly all neighbours on the way up are the parent: it is known without a climb.
        if from.comes_from(other) {
            self.nodes[node as usize].parent
        } else if let Some(at) = find_ancestor(&self.nodes, &self.present, node, other) {
            if !is_above(&self.nodes, node, other) {
                let node_data = closure_node_data(graph, &self.nodes, node, other, at);
                let _ = self.add(node_data, steps);
            }
            at
        } else {
            let node_data = real_node_data(graph, &self.nodes, node, other);
            self.add(node_data, steps)
        }
    }

    // Adds copies of a node.
    #[tactic(auto, using(crate::proofs::lemmas::Added::copies_more))]
    fn add_copies<L: Ledger>(&mut self, node: NodeData, count: u8, steps: &mut Steps<L>)
        requires room { length self.old.nodes + count ≤ self.old.bound }
        requires below { node.parent < length self.old.nodes }
        requires in_order { last_parent (parents_of self.old.nodes) ≤ node.parent }
        requires nearer { node.as_printed ≤ length self.old.nodes }
        ensures added { self.new ≡ record self.old { nodes = self.old.nodes ++ replicate count node } }
        ensures last { last_parent (parents_of self.new.nodes) ≤ node.parent }
        ensures cost { steps.new ≡ steps.old + count }
    {
        for _ in 0..count {
            let _ = self.add(node, steps);
        }
    }

    // Adds a node, with one step, and returns its number.
    fn add<L: Ledger>(&mut self, node: NodeData, steps: &mut Steps<L>) -> u32
        requires room { length self.old.nodes < self.old.bound }
        requires below { node.parent < length self.old.nodes }
        requires in_order { last_parent (parents_of self.old.nodes) ≤ node.parent }
        requires nearer { node.as_printed ≤ length self.old.nodes }
        ensures added { self.new ≡ record self.old { nodes = self.old.nodes ++ node ∷ [] } }
        ensures last { last_parent (parents_of self.new.nodes) ≡ node.parent }
        ensures number { result ≡ length self.old.nodes }
        ensures cost { steps.new ≡ steps.old + 1 }
    {
        let number = self.table.push(Some(node.parent));
        self.nodes.push_reserved(node);
        flag_vertex(&mut self.present, node.vertex);
        steps.tick();
        number
    }
}

impl Nodes for Arena {
    ghost nodes = { λ arena. arena.nodes };

    fn table(&self) -> &Table {
        &self.table
    }

    fn kind(&self, node: u32) -> NodeKind {
        self.nodes[node as usize].kind
    }

    fn vertex(&self, node: u32) -> Option<u32> {
        let node_data = &self.nodes[node as usize];
        match node_data.kind {
            NodeKind::Real => Some(node_data.vertex),
            NodeKind::Closure => Some(node_data.vertex),
            NodeKind::Multiple => Some(node_data.vertex),
            NodeKind::Delocalised => None,
        }
    }

    fn counterpart(&self, node: u32) -> Option<u32> {
        self.nodes[node as usize].counterpart
    }

    fn atom_key(&self, node: u32) -> u32 {
        self.nodes[node as usize].atomic
    }

    fn distance_key(&self, node: u32, rules: Rules) -> u32 {
        match rules {
            Rules::Wording2013 => self.nodes[node as usize].as_printed,
            Rules::Wording2018 => self.nodes[node as usize].as_corrected,
        }
    }

    fn mass_key(&self, node: u32) -> u32 {
        self.nodes[node as usize].mass
    }
}

// The ligands of a node seen from it, as branches.
ghost use Rattle.std.specs.Prelude.{◌≡◌, ◌<◌, ◌≤◌, ◌^◌, [], ℕ, List, true, false, All, IfOk, length, slice_index};
ghost use Rattle.std.specs.List.{AllByRecursion, list_all};
ghost use Rattle.std.specs.declared.option.Option.{Option};
ghost use Rattle.cip_mol.specs.declared.labels.descriptor.Descriptor.{Descriptor as AnyDescriptor};
ghost use Rattle.cip_branches.specs.Deciding.{AreFollowed};
ghost use Rattle.cip_branches.specs.Saving.{restored, saved_of};
ghost use Rattle.cip_partition.specs.Keys.{AreKeyed};
ghost use Rattle.cip_digraph.specs.digraph.Telling.{node_at};
ghost use Rattle.cip_rules.specs.DescriptorMap.{AreDescriptorsOf};
ghost use Rattle.cip_aux.specs.Views.{DigraphView};
ghost use Rattle.cip_aux.specs.Views.{IsReal, sight_of};
ghost use Rattle.cip_digraph.specs.digraph.NodeList.{parents_of};
ghost use Rattle.cip_partition.specs.Parting.{has_flag};
ghost use Rattle.cip_digraph.specs.declared.decisions.branch_pair.BranchPair.{BranchPair as AnyAsked};
ghost use Rattle.cip_digraph.specs.Asking.{AreWithin, is_decided};
ghost use Rattle.cip_rules.specs.Taking.{AreSame};
ghost use Rattle.cip_aux_rank.specs.LigandBranches.{AreConstituted, AreOrdered, AreTops, asked_tops, branch_of, described_by};
ghost use Rattle.cip_aux_rank.specs.LigandBranches.{LeadsElsewhere};

use crate::branches::branch_tops::{branch_of, fill_tops};
use crate::branches::steps_from::Viewpoint;
use crate::branches::unresolved::{are_children, unresolved_place_count};
use crate::keys::constitutional_rules::decide_constitutional_rules;
use cip_aux::WholeDigraph;
use cip_branches::{Branches, Checkpoint};
use cip_digraph::{BranchPair, Nodes};
use cip_partition::ReservedVec;
use cip_rank::path_flags::{clear_path, flag_path, resize_flags};
use cip_rank::zip_results;
use cip_rules::{DescriptorMap, Rule4bWorkspace, decide_configuration};
use std::alloc::{AllocError, Global};
use std::marker::Model;
use std::mem;

/// The branches of a node's ligands, and what ranks them, in memory that is taken at once.
#[derive(Drop)]
pub struct LigandBranches {
    bound: u32,
    branches: Branches,
    // the node at the top of each branch
    tops: ReservedVec<u32>,
    // the nodes on the way from the root to the viewpoint: none is set between rankings
    way: Vec<bool>,
    // how many steps each node is away from that one
    steps: ReservedVec<u32>,
    // those of Rule 4b
    readings: Rule4bWorkspace,
}

impl Model for LigandBranches {
    ghost use Rattle.cip_aux_rank.specs.LigandBranches.{LigandBranches};

    ghost Value = { LigandBranches };

    ghost use Rattle.cip_aux_rank.specs.NearColumns.{nearing_of, HaveRoom};

    ghost view = { nearing_of };

    ghost invariant = { HaveRoom };
}

impl LigandBranches {
    /// No branches, and room for digraphs of `bound` nodes.
    pub fn reserve(alloc: Global, bound: u32) -> Result<LigandBranches, AllocError>
        requires { bound < 2 ^ 31 }
        ensures { IfOk result (λ ligand_branches. ligand_branches.bound ≡ bound) }
    {
        let nodes = zip_results(
            Vec::with_capacity(alloc, bound as usize),
            ReservedVec::reserve(alloc, bound),
        );
        let places = zip_results(
            ReservedVec::reserve(alloc, bound + 1),
            Branches::reserve(alloc, bound),
        );
        let columns = zip_results(nodes, places);
        let Ok((((way, steps), (tops, branches)), readings)) = zip_results(
            columns,
            Rule4bWorkspace::reserve(alloc, bound),
        ) else {
            return Err(AllocError);
        };
        Ok(LigandBranches {
            bound,
            branches,
            tops,
            way,
            steps,
            readings,
        })
    }

    /// Takes those ligands of a node that are next to it as branches.
    pub fn begin<N: Nodes>(
        &mut self,
        whole: &WholeDigraph<'_, N>,
        node: u32,
        ligands: &[Option<u32>],
    )
        requires room { length whole.now.node_data ≤ self.old.bound }
        requires node { node < length whole.now.node_data }
        ensures { self.new ≡ record self.old { tops = asked_tops (parents_of whole.now.node_data) ligands.now node } }
    {
        fill_tops(&mut self.tops, whole.nodes().table(), node, ligands);
    }

    /// The branch of a ligand that is next to the node.
    pub fn branch(&self, ligand: u32) -> Option<u32>
        ensures { result ≡ branch_of self.now.tops ligand }
    {
        let _count = self.tops.len();
        branch_of(self.tops.as_slice(), ligand)
    }

    /// The nodes at the tops of its branches.
    pub fn tops(&self) -> &[u32]
        ensures { result.now ≡ self.now.tops }
    {
        self.tops.as_slice()
    }

    /// Whether there are no branches.
    pub fn is_empty(&self) -> bool
        ensures some { result ≡ false → 0 < length self.now.tops }
        ensures none { result ≡ true → self.now.tops ≡ [] }
    {
        self.tops.len() == 0
    }

    /// Follows the branches of a real node by Rule 1a, and takes Rules 1b and 2 as long as a pair of them is undecided:
    /// what constitution decides, seen from the node. Says whether all pairs are decided. What was decided before stays.
    /// No memory is taken.
    pub fn apply_constitutional_rules<N: Nodes>(
        &mut self,
        whole: &WholeDigraph<'_, N>,
        node: u32,
        requested: &mut [BranchPair],
    ) -> bool
        requires room { length whole.now.node_data ≤ self.old.bound }
        requires real { IsReal (sight_of whole.now).nodes node }
        requires tops { AreTops (parents_of whole.now.node_data) node self.old.tops }
        requires within { All (AreWithin (length self.old.tops)) requested.old }
        ensures constituted { AreConstituted (sight_of whole.now) node self.new.tops self.new.now requested.old requested.new }
        ensures all { result ≡ list_all is_decided requested.new }
        ensures tops { self.new.tops ≡ self.old.tops }
        ensures bound { self.new.bound ≡ self.old.bound }
    {
        let table = whole.nodes().table();
        resize_flags(&mut self.way, table.len());
        flag_path(table, node, &mut self.way);
        let from = Viewpoint {
            node,
            way: &self.way,
        };
        let done = decide_constitutional_rules(
            &mut self.branches,
            whole,
            &from,
            &mut self.steps,
            self.tops.as_slice(),
            requested,
        );
        clear_path(table, node, &mut self.way);
        done
    }

    /// For how many nodes there is room.
    pub fn room(&self) -> u32
        ensures bound { result ≡ self.now.bound }
        ensures few { result < 2 ^ 31 }
        ensures branches { self.now.now.layers.place_tree.room ≡ self.now.bound }
    {
        self.bound
    }

    /// How many places its branches have.
    pub fn len(&self) -> u32
        ensures { result ≡ length self.now.now.layers.place_tree.place_parents }
    {
        self.branches.len()
    }

    /// Sets the ranks of its branches aside.
    pub fn save(&self, ranks: &mut Checkpoint)
        requires { length self.now.now.layers.place_tree.place_parents ≤ ranks.old.room }
        ensures saved { ranks.new ≡ saved_of ranks.old.room self.now.now }
        ensures count { length self.now.now.layers.ranked.numbers ≡ length self.now.now.layers.place_tree.place_parents }
    {
        self.branches.save(ranks);
    }

    /// Lets its branches be as they were when their ranks were set aside.
    pub fn restore(&mut self, ranks: &Checkpoint)
        requires rows { length ranks.now.rows ≡ length self.old.now.layers.ranked.rows }
        requires numbers { length ranks.now.numbers ≡ length self.old.now.layers.place_tree.place_parents }
        requires unresolved { length ranks.now.unresolved ≡ length self.old.now.unresolved }
        ensures { self.new ≡ record self.old { now = restored ranks.now self.old.now } }
    {
        self.branches.restore(ranks);
    }

    /// Takes other branches in place of its own.
    pub fn swap(&mut self, other: &mut Branches)
        requires { other.old.layers.place_tree.room ≡ self.old.bound }
        ensures own { self.new ≡ record self.old { now = other.old } }
        ensures other { other.new ≡ self.old.now }
        ensures room { other.new.layers.place_tree.room ≡ self.new.bound }
    {
        mem::swap(&mut self.branches, other);
    }

    /// Whether all branches that are still unresolved lead to children of the node that they were followed from.
    pub fn all_below(&self, node: u32) -> bool
        ensures down { result ≡ true → (branch : ℕ) → branch < length self.now.tops
            → has_flag self.now.now.unresolved branch ≡ true → node < slice_index self.now.tops branch }
        ensures elsewhere { result ≡ false → LeadsElsewhere self.now.now.unresolved self.now.tops node }
    {
        let _count = self.tops.len();
        are_children(&self.branches, self.tops.as_slice(), node)
    }

    /// Whether at most half of all places are in branches that are still unresolved.
    pub fn has_few_unresolved(&self) -> bool {
        unresolved_place_count(&self.branches) <= self.branches.len() / 2
    }

    /// Takes Rules 3 to 5 where constitution leaves a pair undecided, the last one both ways, by the descriptors of the
    /// nodes in the branches that are still unresolved. What was decided before stays. No memory is taken.
    pub fn apply_rules_3_to_5<M: DescriptorMap>(
        &mut self,
        descriptors: &M,
        requested: &mut [BranchPair],
        turned: &mut [BranchPair],
    )
        requires followed { AreFollowed self.old.now }
        requires keyed { AreKeyed (length (M.descriptors descriptors.now)) self.old.now.layers.place_tree }
        requires room { length self.old.now.layers.place_tree.place_parents ≤ self.old.bound }
        requires len { length turned.old ≡ length requested.old }
        ensures decided { (sight : DigraphView) (node : ℕ) (begin : List AnyAsked) (descriptor : List ℕ → Option AnyDescriptor)
            → AllByRecursion (AreWithin (length self.old.tops)) begin
            → AreConstituted sight node self.old.tops self.old.now begin requested.old
            → list_all is_decided requested.old ≡ false
            → AreDescriptorsOf (node_at sight.nodes) (described_by descriptor) (M.descriptors descriptors.now) self.old.now
            → AreOrdered sight node descriptor self.old.tops begin requested.new turned.new }
        ensures same { AreSame self.old.now self.new.now }
        ensures tops { self.new.tops ≡ self.old.tops }
        ensures bound { self.new.bound ≡ self.old.bound }
    {
        decide_configuration(
            &mut self.branches,
            &mut self.readings,
            descriptors,
            requested,
            turned,
        );
    }
}

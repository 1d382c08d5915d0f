// The rules after Rule 1a, over the branches that settling followed to their ends.
ghost use Rattle.std.specs.Prelude.{◌≡◌, ◌<◌, ◌≤◌, ℕ, List, true, length};
ghost use Rattle.std.specs.List.{list_all};
ghost use Rattle.cip_branches.specs.Deciding.{AreFollowed};
ghost use Rattle.cip_digraph.specs.graph.Graph.{Graph};
ghost use Rattle.cip_digraph.specs.Asking.{is_decided};
ghost use Rattle.cip_rules.specs.Taking.{AreSame};
ghost use Rattle.cip_partition.specs.Keys.{AreKeyed};
ghost use Rattle.cip_constitution.specs.FollowedOut.{AreConstituted, AreFollowedOut, AreOrdered, with_flags};

use crate::work::Work;
use cip_arena::Arena;
use cip_digraph::BranchPair;
use cip_rank::Rules;
use cip_rules::{
    ByDistance, ByMass, DescriptorMap, Rule4bWorkspace, decide_configuration, decide_constitution,
};

impl Work {
    /// Takes Rules 1b and 2 over the branches of a root whose digraph is whole, as long as a pair is undecided, and says
    /// whether all are decided. No memory is taken.
    pub fn apply_rules_1b_2(&mut self, arena: &Arena, rules: Rules) -> bool
        requires followed { (graph : Graph) × (positions : List (List ℕ)) × AreFollowedOut graph positions arena.now
            self.old }
        ensures constituted { (graph : Graph) (positions : List (List ℕ)) → AreFollowedOut graph positions arena.now
            self.old → AreConstituted rules graph positions arena.now self.new.pairs self.new.branched self.new.noted }
        ensures all { result ≡ list_all is_decided self.new.noted }
        ensures pairs { self.new.pairs ≡ self.old.pairs }
        ensures bound { self.new.bound ≡ self.old.bound }
    {
        let distances = ByDistance {
            nodes: arena,
            rules,
        };
        let masses = ByMass { nodes: arena };
        let noted = self.noted.as_mut_slice();
        decide_constitution(&mut self.branches, &distances, &masses, noted)
    }

    /// Flags the nodes in those branches that are still unresolved: another one ties with them.
    pub fn flag_unresolved_nodes(&self, flags: &mut [bool])
        requires keyed { AreKeyed (length flags.old) self.now.branched.layers.place_tree }
        ensures flagged { flags.new ≡ with_flags self.now.branched (length self.now.branched.layers.place_tree.place_parents) flags.old }
        ensures len { length flags.new ≡ length flags.old }
    {
        let branches = &self.branches;
        for place in 0..branches.len() {
            if branches.is_unresolved(branches.branch(place)) {
                flags[branches.node(place) as usize] = true;
            }
        }
    }

    /// Takes Rules 3 to 5 in turn where constitution leaves a pair undecided, by the descriptors of nodes, and the last
    /// one both ways: what is decided where kind S has precedence comes into `turned`. No memory is taken.
    pub fn apply_rules_3_to_5<M: DescriptorMap>(
        &mut self,
        readings: &mut Rule4bWorkspace,
        descriptors: &M,
        turned: &mut [BranchPair],
    )
        requires followed { AreFollowed self.old.branched }
        requires keyed { AreKeyed (length (M.descriptors descriptors.now)) self.old.branched.layers.place_tree }
        requires room { length self.old.branched.layers.place_tree.place_parents ≤ readings.old.bound }
        requires len { length turned.old ≡ length self.old.noted }
        ensures ordered { AreOrdered self.old (M.descriptors descriptors.now) self.new.noted turned.new }
        ensures pairs { self.new.pairs ≡ self.old.pairs }
        ensures same { AreSame self.old.branched self.new.branched }
        ensures len { length self.new.noted ≡ length self.old.noted }
        ensures bound { self.new.bound ≡ self.old.bound }
        ensures readings { readings.new.bound ≡ readings.old.bound }
    {
        let noted = self.noted.as_mut_slice();
        decide_configuration(&mut self.branches, readings, descriptors, noted, turned);
    }
}

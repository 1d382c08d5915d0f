// What a box says of its node and of the branches below it.
ghost use Rattle.std.specs.Prelude.{◌≡◌, ◌<◌, ◌^◌};
ghost use Rattle.cip_tree.specs.Branches.{children as branches_below, gathered, count, node_count as count_of, depth, distance, height as height_of};
ghost use Rattle.cip_tree.specs.Counted.{IsCounted};

use crate::tree::PlainTree;
use cip_rank::Rules;

impl PlainTree {
    /// The branches below the node, in the order of the digraph.
    #[tactic(auto, using(crate::proofs::lemmas::Gathering::listed_gathered))]
    pub fn children(&self) -> &[PlainTree]
        ensures { result.now ≡ branches_below self.now }
    {
        &self.children
    }

    pub(crate) fn atomic(&self) -> u32
        ensures { result ≡ self.now.label.atomic }
    {
        self.atomic
    }

    pub(crate) fn mass(&self) -> u32
        ensures { result ≡ self.now.label.mass }
    {
        self.mass
    }

    pub(crate) fn distance(&self, rules: Rules) -> u32
        ensures { result ≡ distance rules self.now.label }
    {
        match rules {
            Rules::Wording2013 => self.as_printed,
            Rules::Wording2018 => self.as_corrected,
        }
    }

    /// How many nodes there are, if fewer than 2^32.
    #[cycle(counted)]
    pub fn node_count(&self) -> Option<u32>
        ensures { IsCounted (count_of self.now) result }
    {
        counted(&self.children)?.checked_add(1)
    }

    /// The outermost sphere.
    #[cycle(height)]
    pub fn height(&self) -> u32
        requires { height_of self.now < 2 ^ 32 }
        ensures { result ≡ height_of self.now }
    {
        depth_of(&self.children)
    }
}

#[cycle(counted)]
fn counted(branches: &[PlainTree]) -> Option<u32>
    ensures { IsCounted (count (gathered branches.now)) result }
{
    match branches {
        [] => Some(0),
        [first, others @ ..] => first.node_count()?.checked_add(counted(others)?),
    }
}

#[cycle(height)]
fn depth_of(branches: &[PlainTree]) -> u32
    requires { depth (gathered branches.now) < 2 ^ 32 }
    ensures { result ≡ depth (gathered branches.now) }
{
    match branches {
        [] => 0,
        [first, others @ ..] => (first.height() + 1).max(depth_of(others)),
    }
}

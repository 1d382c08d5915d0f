// Rule 4b, taken over both readings of branches.
ghost use Rattle.std.specs.Prelude.{◌≡◌, ◌<◌, ◌≤◌, ◌+◌, ◌^◌, [], ℕ, Bool, false, IfOk, List, length, map, pos, true};
ghost use Rattle.std.specs.List.{AllByRecursion, list_all, range_with_len};
ghost use Rattle.cip_mol.specs.declared.labels.outcome.Rule.{Rule as AnyRule};
ghost use Rattle.cip_mol.specs.declared.labels.outcome.Rule.TheVariants.{R4b};
ghost use Rattle.cip_digraph.specs.digraph.Digraph.{Node};
ghost use Rattle.cip_digraph.specs.rules.Orders.{Seen, rule_4a};
ghost use Rattle.cip_branches.specs.Deciding.{AreFollowed};
ghost use Rattle.cip_partition.specs.Parting.{has_flag};
ghost use Rattle.cip_partition.specs.Keys.{AreKeyed};
ghost use Rattle.cip_branches.specs.Twins.{twins_of, MayDouble};
ghost use Rattle.cip_digraph.specs.declared.decisions.branch_pair.BranchPair.{BranchPair as AnyAsked};
ghost use Rattle.cip_digraph.specs.Asking.{AreWithin, is_decided, with_found};
ghost use Rattle.cip_rules.specs.Deciding.{AreDecidedBy};
ghost use Rattle.cip_rules.specs.DescriptorMap.{AreDescriptorsOf};
ghost use Rattle.cip_rules.specs.Orders.{decided_by};
ghost use Rattle.cip_rules.specs.Rule4bWorkspace.{twin_of, side_of, s_higher, base_of, reading_of, read_as, between};
ghost use Rattle.cip_rules.specs.Rule4bWorkspace.{reading_key, reading_keys, AreTwinsAside, ComparesReadings, TakesReadings};
ghost use Rattle.cip_rules.specs.Taking.{TakesRule};

use crate::apply::apply_rule;
use crate::descriptor_rules::any_descriptor::any_descriptor_counts;
use crate::descriptor_rules::descriptor_map::DescriptorMap;
use crate::descriptor_rules::descriptor_values::{compare_values, reference_value};
use crate::recording::record_decisions;
use cip_branches::{Branches, Checkpoint};
use cip_digraph::{BranchPair, Decision, all_decided};
use cip_mol::Rule;
use cip_partition::ReservedVec;
use cip_rank::Keyed;
use std::alloc::{AllocError, Global};
use std::cmp::Ordering;
use std::marker::Model;

/// Memory for both readings of branches.
#[derive(Drop)]
pub struct Rule4bWorkspace {
    bound: u32,
    // each branch, and after all of them its copy
    twins: Branches,
    // their ranks before the rule; room for those of the branches too
    pub(crate) saved: Checkpoint,
    // of each branch, which of its readings is the higher one
    sides: ReservedVec<BranchPair>,
    // what is like the reference at each place and at its copy
    values: ReservedVec<u8>,
}

impl Model for Rule4bWorkspace {
    ghost use Rattle.cip_rules.specs.Rule4bWorkspace.{Readied, KeepReadings};

    ghost Value = { Readied };

    ghost view = { λ readings. record { bound = readings.bound } };

    ghost invariant = { λ readings. KeepReadings readings.bound readings.twins readings.saved readings.sides
        readings.values };
}

impl Rule4bWorkspace {
    /// Memory for both readings of branches of n places.
    pub fn reserve(alloc: Global, bound: u32) -> Result<Rule4bWorkspace, AllocError>
        requires { bound < 2 ^ 31 }
        ensures { IfOk result (λ readings. readings.bound ≡ bound) }
    {
        let Ok(sides) = ReservedVec::reserve(alloc, bound) else {
            return Err(AllocError);
        };
        let Ok(values) = ReservedVec::reserve(alloc, bound + bound) else {
            return Err(AllocError);
        };
        let Ok(saved) = Checkpoint::reserve(alloc, bound + bound) else {
            return Err(AllocError);
        };
        let Ok(twins) = Branches::reserve(alloc, bound + bound) else {
            return Err(AllocError);
        };
        Ok(Rule4bWorkspace {
            bound,
            twins,
            saved,
            sides,
            values,
        })
    }
}

// The branch that a copy is of.
fn base_of(count: u32, reading: u32) -> u32
    ensures { result ≡ base_of count reading }
{
    if reading < count {
        reading
    } else {
        reading - count
    }
}

// What is like the reference at a place, or at the copy of one.
fn reading_value<M: DescriptorMap>(branches: &Branches, descriptors: &M, place: u32) -> u8
    requires keyed { AreKeyed (length (M.descriptors descriptors.now)) branches.now.layers.place_tree }
    requires place { place < length branches.now.layers.place_tree.place_parents + length branches.now.layers.place_tree.place_parents }
    ensures { pos result ≡ reading_key (M.descriptors descriptors.now) branches.now.layers.place_tree.nodes
        (length branches.now.layers.place_tree.place_parents) place }
{
    let count = branches.len();
    let node = branches.node(base_of(count, place));
    reference_value(descriptors.descriptor(node), count <= place)
}

// The same at all of them.
fn write_values<M: DescriptorMap>(
    branches: &Branches,
    descriptors: &M,
    values: &mut ReservedVec<u8>,
)
    requires keyed { AreKeyed (length (M.descriptors descriptors.now)) branches.now.layers.place_tree }
    requires few { length branches.now.layers.place_tree.place_parents + length branches.now.layers.place_tree.place_parents < 2 ^ 32 }
    requires room { length branches.now.layers.place_tree.place_parents + length branches.now.layers.place_tree.place_parents ≤ values.old.room }
    ensures len { length values.new.items ≡ length branches.now.layers.place_tree.place_parents + length branches.now.layers.place_tree.place_parents }
    ensures values { map pos values.new.items ≡ reading_keys (M.descriptors descriptors.now) branches.now }
    ensures room { values.new.room ≡ values.old.room }
{
    values.clear();
    let count = branches.len();
    for place in 0..count + count {
        values.push(reading_value(branches, descriptors, place));
    }
}

// What is like the reference, of the nodes at places and at their copies, put down once: the rule is taken up to three
// times.
#[derive(Drop)]
struct ReadingKeys<'a, M: DescriptorMap> {
    branches: &'a Branches,
    descriptors: &'a M,
    values: &'a [u8],
    ghost len: { length values.now ≡ length branches.now.layers.place_tree.place_parents + length branches.now.layers.place_tree.place_parents },
    ghost node_data: { map pos values.now ≡ reading_keys (M.descriptors descriptors.now) branches.now },
}

impl<M: DescriptorMap> Keyed for ReadingKeys<'_, M> {
    ghost nodes = { λ keys. length keys.branches.now.layers.place_tree.place_parents + length keys.branches.now.layers.place_tree.place_parents };

    ghost key = { λ keys. reading_keys (M.descriptors keys.descriptors.now) keys.branches.now };

    fn compare(&self, a: u32, b: u32) -> Ordering {
        compare_values(self.values[a as usize], self.values[b as usize])
    }
}

// The other reading of a branch, if it is unresolved.
fn twin_of(branches: &Branches, branch: u32) -> u32
    requires { length branches.now.layers.place_tree.place_parents + length branches.now.layers.place_tree.place_parents < 2 ^ 32 }
    ensures { result ≡ twin_of branches.now branch }
{
    let count = branches.branch_count();
    if branches.is_unresolved(branch) {
        branches.len() + branch
    } else {
        branch
    }
}

// Asks which reading of a branch is the higher one. Of one that was dropped that is decided, so that the rule isn't
// taken further for it.
fn side_of(branches: &Branches, branch: u32) -> BranchPair
    requires { length branches.now.layers.place_tree.place_parents + length branches.now.layers.place_tree.place_parents < 2 ^ 32 }
    ensures { result ≡ side_of branches.now branch }
{
    let decision = if branches.is_unresolved(branch) {
        None
    } else {
        Some(Decision {
            side: Ordering::Equal,
            rule: Rule::R4b,
            sphere: 0,
        })
    };
    BranchPair {
        first: branch,
        second: twin_of(branches, branch),
        decision,
    }
}

// Asks which reading of each branch is the higher one.
fn ask_sides(branches: &Branches, sides: &mut ReservedVec<BranchPair>)
    requires few { length branches.now.layers.place_tree.place_parents + length branches.now.layers.place_tree.place_parents < 2 ^ 32 }
    requires room { length branches.now.unresolved ≤ sides.old.room }
    ensures { sides.new ≡ record sides.old {
      items = map (side_of branches.now)
          (range_with_len 0 (length branches.now.unresolved));
    } }
{
    sides.clear();
    for branch in 0..branches.branch_count() {
        sides.push(side_of(branches, branch));
    }
}

// Whether the reading with S is the higher one of a branch.
fn is_s_higher(sides: &[BranchPair], branch: u32) -> bool
    ensures { result ≡ has_flag (s_higher sides.now) branch }
{
    if (branch as usize) < sides.len() {
        match sides[branch as usize].decision {
            Some(found) => found.side == Ordering::Less,
            None => false,
        }
    } else {
        false
    }
}

// The lower or the higher reading of a branch.
fn reading_of(branches: &Branches, sides: &[BranchPair], lower: bool, branch: u32) -> u32
    requires { length branches.now.layers.place_tree.place_parents + length branches.now.layers.place_tree.place_parents < 2 ^ 32 }
    ensures { result ≡ reading_of branches.now (s_higher sides.now) lower branch }
{
    if is_s_higher(sides, branch) == lower {
        branch
    } else {
        twin_of(branches, branch)
    }
}

// The same pair, asked about between the lower or the higher readings.
fn read_one(branches: &Branches, sides: &[BranchPair], lower: bool, one: BranchPair) -> BranchPair
    requires { length branches.now.layers.place_tree.place_parents + length branches.now.layers.place_tree.place_parents < 2 ^ 32 }
    ensures { result ≡ between (read_as branches.now (s_higher sides.now) lower) one }
{
    let count = branches.len();
    BranchPair {
        first: reading_of(branches, sides, lower, base_of(count, one.first)),
        second: reading_of(branches, sides, lower, base_of(count, one.second)),
        decision: one.decision,
    }
}

// Asks about the lower or the higher readings.
fn read_all(branches: &Branches, sides: &[BranchPair], lower: bool, pairs: &mut [BranchPair])
    requires { length branches.now.layers.place_tree.place_parents + length branches.now.layers.place_tree.place_parents < 2 ^ 32 }
    ensures { pairs.new ≡ map (between (read_as branches.now (s_higher sides.now) lower)) pairs.old }
{
    for one in pairs.iter_mut() {
        *one = read_one(branches, sides, lower, *one);
    }
}

// A pair by the branches that its copies are of.
fn name_one(count: u32, one: BranchPair) -> BranchPair
    ensures { result ≡ between (base_of count) one }
{
    BranchPair {
        first: base_of(count, one.first),
        second: base_of(count, one.second),
        decision: one.decision,
    }
}

// Names the branches of readings.
fn name_all(count: u32, pairs: &mut [BranchPair])
    ensures { pairs.new ≡ map (between (base_of count)) pairs.old }
{
    for one in pairs.iter_mut() {
        *one = name_one(count, *one);
    }
}

// Makes copies of branches for both readings, and sets their ranks aside.
fn set_aside(branches: &Branches, twins: &mut Branches, saved: &mut Checkpoint)
    requires followed { AreFollowed branches.now }
    requires some { 0 < length branches.now.layers.place_tree.place_parents }
    requires room { length branches.now.layers.place_tree.place_parents + length branches.now.layers.place_tree.place_parents ≤ twins.old.layers.place_tree.room }
    requires saved_room { length branches.now.layers.place_tree.place_parents + length branches.now.layers.place_tree.place_parents ≤ saved.old.room }
    ensures aside { AreTwinsAside branches.now saved.new twins.new }
    ensures keyed { AreKeyed (length branches.now.layers.place_tree.place_parents + length branches.now.layers.place_tree.place_parents)
        twins.new.layers.place_tree }
    ensures room { twins.new.layers.place_tree.room ≡ twins.old.layers.place_tree.room }
    ensures saved_room { saved.new.room ≡ saved.old.room }
    ensures may { MayDouble branches.now }
{
    twins.fill_copies(branches);
    twins.save(saved);
}

// Takes the rule over copies whose ranks were set aside.
fn take_again<K: Keyed>(
    branches: &Branches,
    twins: &mut Branches,
    saved: &Checkpoint,
    keys: &K,
    pairs: &mut [BranchPair],
)
    requires aside { AreTwinsAside branches.now saved.now twins.old }
    requires keyed { AreKeyed (K.nodes keys.now) twins.old.layers.place_tree }
    ensures taken { TakesRule (twins_of twins.new.layers.place_tree.room branches.now) (K.key keys.now) R4b pairs.old twins.new
        pairs.new }
    ensures aside { AreTwinsAside branches.now saved.now twins.new }
    ensures place_tree { twins.new.layers.place_tree ≡ twins.old.layers.place_tree }
{
    let _places = branches.len();
    twins.restore(saved);
    apply_rule(twins, keys, Rule::R4b, pairs);
}

// The same, where a pair is still open.
fn take_open<K: Keyed>(
    branches: &Branches,
    twins: &mut Branches,
    saved: &Checkpoint,
    keys: &K,
    pairs: &mut [BranchPair],
)
    requires aside { AreTwinsAside branches.now saved.now twins.old }
    requires keyed { AreKeyed (K.nodes keys.now) twins.old.layers.place_tree }
    ensures decided { list_all is_decided pairs.old ≡ true → pairs.new ≡ pairs.old }
    ensures taken { list_all is_decided pairs.old ≡ false → TakesRule (twins_of twins.new.layers.place_tree.room branches.now)
        (K.key keys.now) R4b pairs.old twins.new pairs.new }
    ensures place_tree { twins.new.layers.place_tree ≡ twins.old.layers.place_tree }
{
    if !all_decided(pairs) {
        take_again(branches, twins, saved, keys, pairs);
    }
}

// The same, for the pairs in a column.
fn take_sides<K: Keyed>(
    branches: &Branches,
    twins: &mut Branches,
    saved: &Checkpoint,
    keys: &K,
    sides: &mut ReservedVec<BranchPair>,
)
    requires aside { AreTwinsAside branches.now saved.now twins.old }
    requires keyed { AreKeyed (K.nodes keys.now) twins.old.layers.place_tree }
    ensures taken { TakesRule (twins_of twins.new.layers.place_tree.room branches.now) (K.key keys.now) R4b sides.old.items
        twins.new sides.new.items }
    ensures aside { AreTwinsAside branches.now saved.now twins.new }
    ensures place_tree { twins.new.layers.place_tree ≡ twins.old.layers.place_tree }
    ensures room { sides.new.room ≡ sides.old.room }
{
    let sides = &mut sides.items;
    take_again(branches, twins, saved, keys, sides);
}

// Compares the higher readings of branches, and where two of them tie the lower ones.
fn take_pairs<K: Keyed>(
    branches: &Branches,
    twins: &mut Branches,
    saved: &Checkpoint,
    keys: &K,
    sides: &[BranchPair],
    pairs: &mut [BranchPair],
)
    requires aside { AreTwinsAside branches.now saved.now twins.old }
    requires keyed { AreKeyed (K.nodes keys.now) twins.old.layers.place_tree }
    ensures compared { ComparesReadings branches.now (twins_of twins.old.layers.place_tree.room branches.now) (K.key keys.now)
        sides.now pairs.old pairs.new }
    ensures place_tree { twins.new.layers.place_tree ≡ twins.old.layers.place_tree }
{
    read_all(branches, sides, false, pairs);
    take_again(branches, twins, saved, keys, pairs);
    read_all(branches, sides, true, pairs);
    take_open(branches, twins, saved, keys, pairs);
    name_all(branches.len(), pairs);
}

// Takes the rule over both readings of branches.
fn take_with<M: DescriptorMap>(
    keys: &ReadingKeys<'_, M>,
    twins: &mut Branches,
    saved: &mut Checkpoint,
    sides: &mut ReservedVec<BranchPair>,
    pairs: &mut [BranchPair],
)
    requires followed { AreFollowed keys.now.branches.now }
    requires some { 0 < length keys.now.branches.now.layers.place_tree.place_parents }
    requires room { length keys.now.branches.now.layers.place_tree.place_parents + length keys.now.branches.now.layers.place_tree.place_parents
        ≤ twins.old.layers.place_tree.room }
    requires saved_room { length keys.now.branches.now.layers.place_tree.place_parents + length keys.now.branches.now.layers.place_tree.place_parents
        ≤ saved.old.room }
    requires sides_room { length keys.now.branches.now.unresolved ≤ sides.old.room }
    ensures taken { TakesReadings keys.now.branches.now (M.descriptors keys.now.descriptors.now) pairs.old pairs.new }
    ensures room { twins.new.layers.place_tree.room ≡ twins.old.layers.place_tree.room }
    ensures saved_room { saved.new.room ≡ saved.old.room }
    ensures sides_room { sides.new.room ≡ sides.old.room }
    ensures may { MayDouble keys.now.branches.now }
{
    let branches = keys.branches;
    set_aside(branches, twins, saved);
    ask_sides(branches, sides);
    take_sides(branches, twins, saved, keys, sides);
    take_pairs(branches, twins, saved, keys, sides.as_slice(), pairs);
}

/// What Rule 4b decides between branches that are ordered by Rule 4a: the higher readings of two decide, and where they
/// tie the lower ones. Where no descriptor is of kind R or S, the numbers of the branches decide it. These stay. No
/// memory is taken.
pub fn apply_rule_4b<M: DescriptorMap>(
    branches: &Branches,
    readings: &mut Rule4bWorkspace,
    descriptors: &M,
    pairs: &mut [BranchPair],
)
    requires followed { AreFollowed branches.now }
    requires keyed { AreKeyed (length (M.descriptors descriptors.now)) branches.now.layers.place_tree }
    requires room { length branches.now.layers.place_tree.place_parents ≤ readings.old.bound }
    ensures found { (seen : Seen Node) (named node : ℕ → Node) (count : ℕ) (begin : List AnyAsked)
        (rules : List AnyRule) → AllByRecursion (AreWithin count) begin
        → AreDecidedBy seen true named node count begin rules (rule_4a seen seen.height) branches.now pairs.old
        → AreDescriptorsOf named seen.descriptor (M.descriptors descriptors.now) branches.now
        → pairs.new ≡ map (with_found (decided_by seen true R4b node)) pairs.old }
    ensures bound { readings.new.bound ≡ readings.old.bound }
{
    // Counting the places says that branches can be doubled.
    let _places = branches.count();
    if any_descriptor_counts(branches, descriptors, Rule::R5) {
        take_both(branches, readings, descriptors, pairs);
    } else {
        record_decisions(branches, Rule::R4b, 0, pairs);
    }
}

/// The same, of nodes of any kind: the rule is taken over both readings, where there is a branch.
pub(crate) fn take_both<M: DescriptorMap>(
    branches: &Branches,
    readings: &mut Rule4bWorkspace,
    descriptors: &M,
    pairs: &mut [BranchPair],
)
    requires followed { AreFollowed branches.now }
    requires keyed { AreKeyed (length (M.descriptors descriptors.now)) branches.now.layers.place_tree }
    requires room { length branches.now.layers.place_tree.place_parents ≤ readings.old.bound }
    ensures none { length branches.now.layers.place_tree.place_parents ≡ 0 → pairs.new ≡ pairs.old }
    ensures taken { 0 < length branches.now.layers.place_tree.place_parents → TakesReadings branches.now (M.descriptors descriptors.now) pairs.old
        pairs.new }
    ensures may { 0 < length branches.now.layers.place_tree.place_parents → MayDouble branches.now }
    ensures tops { length branches.now.unresolved ≤ length branches.now.layers.place_tree.place_parents }
    ensures bound { readings.new.bound ≡ readings.old.bound }
{
    if branches.len() > 0 {
        let _branches = branches.branch_count();
        write_values(branches, descriptors, &mut readings.values);
        let keys = ReadingKeys {
            branches,
            descriptors,
            values: readings.values.as_slice(),
        };
        take_with(
            &keys,
            &mut readings.twins,
            &mut readings.saved,
            &mut readings.sides,
            pairs,
        );
    }
}

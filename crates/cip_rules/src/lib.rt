//! Applies the sequence rules to branches and decides between pairs of them.
//!
//! `decide_constitution` applies Rules 1b and 2, `decide_configuration` Rules 3 to 5 with the descriptors of a
//! `DescriptorMap`; Rule 5 runs both ways. Each returns whether every `BranchPair` is decided. `apply_rule` is the step
//! they share, `apply_rule_4b` compares two copies of each branch in a `Rule4bWorkspace`, one per reference descriptor.
//! `ByAtom`, `ByDistance` and `ByMass` are the keys of Rules 1a, 1b and 2. Uses `cip_branches` and the definitions of
//! `cip_digraph`.
#![tactic(auto)]

mod apply;
mod configuration;
mod constitution;
mod descriptor_rules;
mod generic;
mod keys;
mod recording;
mod rule_4b;
mod rule_5;

pub use apply::apply_rule;
pub use configuration::decide_configuration;
pub use constitution::decide_constitution;
pub use descriptor_rules::descriptor_keys::{DescriptorKeys, descriptor_value};
pub use descriptor_rules::descriptor_map::DescriptorMap;
pub use descriptor_rules::descriptor_values::{
    compare_values, reference_value, rule_3_value, rule_4a_value, rule_4c_value, rule_5_value,
};
pub use descriptor_rules::no_descriptors::has_no_descriptors;
pub use generic::{NodeDescriptors, apply_rule_4b_to_nodes, apply_rule_to_nodes};
pub use keys::{ByAtom, ByDistance, ByMass};
pub use recording::record_decisions;
pub use rule_4b::{Rule4bWorkspace, apply_rule_4b};
pub use rule_5::apply_rule_5_both_ways;

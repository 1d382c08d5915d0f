// Rules 3, 4a, 4c and 5 as keys of nodes.
ghost use Rattle.std.specs.Prelude.{◌≡◌, length, pos};
ghost use Rattle.cip_rules.specs.Orders.{key_of_descriptor};

use crate::descriptor_rules::descriptor_map::DescriptorMap;
use crate::descriptor_rules::descriptor_values::{
    compare_values, rule_3_value, rule_4a_value, rule_4c_value, rule_5_value,
};
use cip_mol::{Descriptor, Rule};
use cip_rank::Keyed;
use std::cmp::Ordering;

/// What a descriptor counts for in a rule; in Rule 5 with kind R first or kind S.
pub fn descriptor_value(rule: Rule, r_first: bool, descriptor: Option<Descriptor>) -> u8
    ensures { pos result ≡ key_of_descriptor r_first rule descriptor }
{
    match rule {
        Rule::R3 => rule_3_value(descriptor),
        Rule::R4a => rule_4a_value(descriptor),
        Rule::R4c => rule_4c_value(descriptor),
        Rule::R5 => rule_5_value(descriptor, r_first),
        Rule::R1a | Rule::R1b | Rule::R2 | Rule::R4b => 0,
    }
}

/// The keys of nodes by their descriptors, by one of these rules.
#[derive(Drop)]
pub struct DescriptorKeys<'a, M: DescriptorMap> {
    pub rule: Rule,
    pub r_first: bool,
    pub descriptors: &'a M,
}

impl<M: DescriptorMap> Keyed for DescriptorKeys<'_, M> {
    ghost use Rattle.std.specs.Prelude.{map};

    ghost nodes = { λ keys. length (M.descriptors keys.descriptors.now) };

    ghost key = { λ keys. map (key_of_descriptor keys.r_first keys.rule) (M.descriptors keys.descriptors.now) };

    // Compares two nodes by what their descriptors count for.
    fn compare(&self, a: u32, b: u32) -> Ordering {
        compare_values(
            descriptor_value(self.rule, self.r_first, self.descriptors.descriptor(a)),
            descriptor_value(self.rule, self.r_first, self.descriptors.descriptor(b)),
        )
    }
}

// The rules, as branches are asked.
pub mod constitutional_rules;
pub mod later_rules;

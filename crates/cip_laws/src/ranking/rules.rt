// Laws of rules that are taken over branches.
ghost use Rattle.cip_rules.specs.Laws.{Rule1aDecides, RulesGoOn, DecidedPairsAreOrdered};

/// What is noted while Rule 1a is followed to the end is what it decides, and its numbers are its order.
pub fn rule_1a_decides()
    ensures { Rule1aDecides }
{}

/// A further rule decides pairs as its definition does, and leaves the numbers that the next one goes on from.
pub fn rules_go_on()
    ensures { RulesGoOn }
{}

/// Where all pairs are decided, each has the order of its branches by all rules.
pub fn decided_pairs_are_ordered()
    ensures { DecidedPairsAreOrdered }
{}

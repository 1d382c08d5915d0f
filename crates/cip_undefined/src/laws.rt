// Laws of undefined units.
ghost use Rattle.cip_undefined.specs.Laws.{SensesKeepOrders};

/// Whichever sense is shown of a unit, it has the order, the rule and the sphere of an open one, or ties, or is over
/// the bound.
pub fn senses_keep_orders()
    ensures { SensesKeepOrders }
{}

// Laws of marks that open centres get.
ghost use Rattle.cip_laws.specs.Marks.{GivenMarksKeepOrders, MarksKeepOrders};
ghost use Rattle.cip_laws.specs.TurnedBonds.{GivenMarksKeepLigands};

/// A centre that gets marks with their narrow end there has the order, the rule and the sphere that it had as an open
/// one.
pub fn marks_keep_orders()
    ensures { MarksKeepOrders }
{}

/// So has one that is given a mark as by `mark_for_letter`, at a bond that is drawn from it.
pub fn given_marks_keep_orders()
    ensures { GivenMarksKeepOrders }
{}

/// A centre that is given a mark as by `mark_for_letter` has the rule, the sphere and the ligands in rank order that it had
/// as an open one, however the bond was drawn that is marked.
pub fn given_marks_keep_ligands()
    ensures { GivenMarksKeepLigands }
{}

// Laws of the definitions, and worked examples on which they are tried.
ghost use Rattle.cip_digraph.specs.digraph.Digraph.{Node};
ghost use Rattle.cip_digraph.specs.rules.EarlyOrder.{EarlyOrdersStay, EarlyTiesStay};
ghost use Rattle.cip_digraph.specs.Laws.{DrawnGraphsAreSound, RingsAreFound, SmallRingsAreFound, LeastSphereDecides, PathsRepeatNothing, DigraphsEnd, RealNodesDiffer, DecisionsStay, OrdersAreTotal, BranchesEnd, TiesAreSameBranches, ExchangeTurns, TurningKeepsReasons, DescriptorsAreLetters, ReflectionExchangesDescriptors, ReflectionExchangesOutcomes};
ghost use Rattle.cip_digraph.specs.rules.Orders.{Seen};
ghost use Rattle.cip_digraph.specs.units.InversionLaws.{InversionsTurnBack, WholeInversionsMirror};
ghost use Rattle.cip_digraph.specs.worked.WorkedDigraphs.{AreCounted, HaveKeys};
ghost use Rattle.cip_digraph.specs.worked.WorkedGraphs.{AreDrawn, HaveUnits};
ghost use Rattle.cip_digraph.specs.worked.WorkedLabels.{AreLabelled, HaveAuxiliaries, AreBounded};

/// The graph of a molecule is sound: its edges join two different vertices of it, and no two edges the same ones.
pub fn drawn_graphs_are_sound()
    ensures { DrawnGraphsAreSound }
{}

/// An alternating ring through a single bond is found exactly where there is one.
pub fn rings_are_found()
    ensures { RingsAreFound }
{}

/// A ring of seven atoms at most through a bond is found exactly where there is one.
pub fn small_rings_are_found()
    ensures { SmallRingsAreFound }
{}

/// No path of a digraph meets a vertex twice.
pub fn paths_repeat_nothing()
    ensures { PathsRepeatNothing }
{}

/// A digraph ends: no sphere beyond the number of vertices has a node.
pub fn digraphs_end()
    ensures { DigraphsEnd }
{}

/// Different real nodes have different paths.
pub fn real_nodes_differ()
    ensures { RealNodesDiffer }
{}

/// What a rule decides at a depth stays decided further down.
pub fn decisions_stay()
    ensures { (seen : Seen Node) → DecisionsStay seen }
{}

/// The order by all rules is an order with ties, also with the last rule turned.
pub fn orders_are_total()
    ensures { OrdersAreTotal }
{}

/// Seen from its root, the branches of a digraph end within its height.
pub fn branches_end()
    ensures { BranchesEnd }
{}

/// Two branches tie by all rules exactly where they match node by node.
pub fn ties_are_same_branches()
    ensures { TiesAreSameBranches }
{}

/// Reflected descriptors leave the rules before the last one as they are, and turn the last one.
pub fn exchange_turns()
    ensures { (seen : Seen Node) → ExchangeTurns seen }
{}

/// Turning the last rule changes neither ties nor the rule and sphere of a decision.
pub fn turning_keeps_reasons()
    ensures { TurningKeepsReasons }
{}

/// A descriptor inside a digraph is the letter by those strictly inside its own subtree.
pub fn descriptors_are_letters()
    ensures { DescriptorsAreLetters }
{}

/// Reflected units have exchanged descriptors inside every digraph.
pub fn reflection_exchanges_descriptors()
    ensures { ReflectionExchangesDescriptors }
{}

/// A reflected unit has the same kind of outcome, with its descriptor exchanged.
pub fn reflection_exchanges_outcomes()
    ensures { ReflectionExchangesOutcomes }
{}

/// Units of which some centres are turned twice are as before, and are where they were.
pub fn inversions_turn_back()
    ensures { InversionsTurnBack }
{}

/// With every centre turned, and no axis among the units, each unit has the same kind of outcome, with its descriptor
/// exchanged.
pub fn whole_inversions_mirror()
    ensures { WholeInversionsMirror }
{}

/// Ligands are settled in the least sphere that settles them.
pub fn least_sphere_decides()
    ensures { LeastSphereDecides }
{}

/// Ligands that all differ by Rule 1a within a sphere have the order by all rules that this sphere gives.
pub fn early_orders_stay()
    ensures { EarlyOrdersStay }
{}

/// Ligands that have ended, tie by Rules 1a, 1b and 2 and hold no atom of a unit tie by all rules.
pub fn early_ties_stay()
    ensures { EarlyTiesStay }
{}

/// Hydrogens, lone pairs and neglected bonds of small molecules.
pub fn worked_graphs_are_drawn()
    ensures { AreDrawn }
{}

/// The units of small molecules, with their ligands.
pub fn worked_units_are_found()
    ensures { HaveUnits }
{}

/// How many nodes are in the spheres of small molecules.
pub fn worked_digraphs_are_counted()
    ensures { AreCounted }
{}

/// Atomic, distance and mass keys of small molecules.
pub fn worked_keys_are_given()
    ensures { HaveKeys }
{}

/// Labels by each of the rules.
pub fn worked_molecules_are_labelled()
    ensures { AreLabelled }
{}

/// Descriptors inside a digraph.
pub fn worked_auxiliaries_stand()
    ensures { HaveAuxiliaries }
{}

/// Ties, and digraphs larger than a bound.
pub fn worked_bounds_hold()
    ensures { AreBounded }
{}

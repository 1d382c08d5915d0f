// Laws of both outcomes, and the definitions tried on worked records.
ghost use Rattle.cip_stereogroups.specs.Laws.{BothAreOfOneCentre, FirstCausesDecide, TurnedTwiceIsDrawn, WholeGroupsMirror};
ghost use Rattle.cip_stereogroups.specs.Worked.{AreFound};

/// The first line with a cause decides, whatever follows it.
pub fn first_causes_decide()
    ensures { FirstCausesDecide }
{}

/// Both outcomes are those of the centre at the atom, as it is drawn and turned.
pub fn both_are_of_one_centre()
    ensures { BothAreOfOneCentre }
{}

/// With the centres of a group turned twice, each centre has its outcome as drawn.
pub fn turned_twice_is_drawn()
    ensures { TurnedTwiceIsDrawn }
{}

/// Where a group holds every centre, and no unit is an axis, the second outcome of each centre is the first with its
/// descriptor exchanged.
pub fn whole_groups_mirror()
    ensures { WholeGroupsMirror }
{}

/// Collections are read and refused as they were worked by hand.
pub fn worked_collections_are_read()
    ensures { AreFound }
{}

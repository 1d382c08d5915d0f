// What holds of a label item that is put in or taken out.
ghost use Rattle.cip_item.specs.Laws.{
  BodiesStay,
  GapsFollowOtherItems,
  ItemsArePutAgain,
  ItemsAreTakenOut,
  LineEndsAreOfTheFirstLine,
  NoLabelItemStays,
  OnlyLabelItemsGo,
  OthersStay,
};

/// Taking out an item that was put in leaves the record as it was, but for the line ends that the item needed.
pub fn items_are_taken_out()
    ensures { ItemsAreTakenOut }
{}

/// Labelling a labelled record again, with the same values, changes no byte.
pub fn items_are_put_again()
    ensures { ItemsArePutAgain }
{}

/// What is taken out are the lines of label items, and every other line stays in its place in the order.
pub fn only_label_items_go()
    ensures { OnlyLabelItemsGo }
{}

/// A record without its label items has none.
#[tactic(auto, using(cip_item::proofs::lemmas::NoLabels::no_label_item))]
pub fn no_label_item_stays()
    ensures { NoLabelItemStays }
{}

/// A record that has no label item is the same without them.
#[tactic(auto, using(cip_item::proofs::lemmas::Walking::itself))]
pub fn others_stay()
    ensures { OthersStay }
{}

/// An item has the line ends of the record's first line.
#[tactic(auto, using(crate::proofs::lemmas::put_items::FirstEnds::of_first_line))]
pub fn line_ends_are_of_the_first_line()
    ensures { LineEndsAreOfTheFirstLine }
{}

/// An item has an empty line before it where another one would go on.
#[tactic(auto, using(crate::proofs::lemmas::put_items::FirstEnds::behind_items))]
pub fn gaps_follow_other_items()
    ensures { GapsFollowOtherItems }
{}

/// A record is its body with its closing after it, and with an item put in it begins with its body.
#[tactic(auto, using(cip_item::proofs::lemmas::Walking::bodies_stay))]
pub fn bodies_stay()
    ensures { BodiesStay }
{}

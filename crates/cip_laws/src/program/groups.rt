// Groups by their lines.
ghost use Rattle.cip_laws.specs.GroupLaws.{GroupsAreOfLines, RepeatedIsNamedTwice};

/// A group is there exactly where a group line in a collection has its name, and an atom is in it exactly where a line of
/// this name names it. Groups have different names, and no atom is in two of them.
pub fn groups_are_of_lines()
    ensures { GroupsAreOfLines }
{}

/// `Repeated` is reported at the first group line up to which an atom is named twice.
pub fn repeated_is_named_twice()
    ensures { RepeatedIsNamedTwice }
{}

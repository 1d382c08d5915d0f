// Why the groups of a record aren't read.
ghost use Rattle.std.specs.Prelude.{◌≡◌};
ghost use Rattle.cip_stereogroups.specs.declared.faults.GroupRefusal.TheVariants as refusals;

use std::fmt;

/// What is wrong with a line of a collection.
#[derive(Clone, Copy)]
pub enum GroupCause {
    /// The table ends inside a collection.
    Frame,
    /// The number of a group is none from 1 to 1,000,000,000.
    Name,
    /// A list of atoms isn't of its form.
    Word,
    /// A number in a list of atoms is no atom's index.
    Atom,
    /// An atom is in a group line for the second time.
    Repeated,
}

impl fmt::Display for GroupCause {
    ghost use Rattle.std.specs.Prelude.{Some};
    ghost use Rattle.cip_stereogroups.specs.Telling.{cause_text};

    ghost output = { λ cause. Some (cause_text cause) };

    fn fmt<W: fmt::Write>(&self, f: &mut fmt::Formatter<W>) -> fmt::Result {
        f.write_str(match self {
            GroupCause::Frame => "Frame",
            GroupCause::Name => "Name",
            GroupCause::Word => "Word",
            GroupCause::Atom => "Atom",
            GroupCause::Repeated => "Repeated",
        })
    }
}

/// The first line at which a cause holds, counted from 1, and the first cause there.
#[derive(Clone, Copy)]
pub struct GroupFault {
    pub line: u32,
    pub cause: GroupCause,
}

/// Why there are no groups: what is wrong with a line, or want of memory.
#[derive(Clone, Copy)]
pub enum GroupRefusal {
    Fault(GroupFault),
    Memory,
}

/// A cause in the line of this number.
pub fn refused(number: u32, cause: GroupCause) -> GroupRefusal
    ensures { result ≡ refusals.Fault (record { line = number; cause = cause }) }
{
    GroupRefusal::Fault(GroupFault {
        line: number,
        cause,
    })
}

// The names of groups.
ghost use Rattle.std.specs.Prelude.{◌≡◌};
ghost use Rattle.cip_stereogroups.specs.Names.{kind_of, number_of};

use crate::faults::GroupCause;
use cip_ctfile::parse_number;
use std::fmt;

/// The greatest number of a group.
const GREATEST: u32 = 1_000_000_000;

/// What a group is: its centres are as they are drawn, or a mixture of both stereoisomers, or one of the two.
#[derive(Clone, Copy, PartialEq, Eq, Hash)]
pub enum GroupKind {
    Absolute,
    Racemic(u32),
    Relative(u32),
}

impl fmt::Display for GroupKind {
    ghost use Rattle.std.specs.Prelude.{Some};
    ghost use Rattle.cip_stereogroups.specs.Telling.{kind_text};

    ghost output = { λ kind. Some (kind_text kind) };

    fn fmt<W: fmt::Write>(&self, f: &mut fmt::Formatter<W>) -> fmt::Result {
        match *self {
            GroupKind::Absolute => f.write_str("abs"),
            GroupKind::Racemic(number) => write!(f, "rac{number}"),
            GroupKind::Relative(number) => write!(f, "rel{number}"),
        }
    }
}

/// The group that a word names; none where it names something else.
#[tactic(auto, unfolding(crate::specs::Names::kind_of))]
pub fn kind_of(word: &[u8]) -> Result<Option<GroupKind>, GroupCause>
    ensures { result ≡ kind_of word.now }
{
    if word == b"MDLV30/STEABS".as_slice() {
        Ok(Some(GroupKind::Absolute))
    } else if word.starts_with(b"MDLV30/STERAC") {
        match number_of(&word[13..]) {
            Ok(number) => Ok(Some(GroupKind::Racemic(number))),
            Err(cause) => Err(cause),
        }
    } else if word.starts_with(b"MDLV30/STEREL") {
        match number_of(&word[13..]) {
            Ok(number) => Ok(Some(GroupKind::Relative(number))),
            Err(cause) => Err(cause),
        }
    } else {
        Ok(None)
    }
}

// The number of a group, which follows its kind.
#[tactic(auto, unfolding(crate::specs::Names::number_of))]
fn number_of(text: &[u8]) -> Result<u32, GroupCause>
    ensures { result ≡ number_of text.now }
{
    match parse_number(GREATEST, text) {
        None | Some(0) => Err(GroupCause::Name),
        Some(number) => Ok(number),
    }
}

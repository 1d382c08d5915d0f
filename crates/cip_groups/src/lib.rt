//! The stereo groups of a single V3000 record, in memory of their own.
//!
//! ```rust
//! let groups = group_text(alloc, record, 1, 100_000, Rules::Wording2018)?;
//! // groups.text:    record 1
//! //                 rac1 a2 R S
//! //                 rac1 a4 S R
//! // groups.flagged: whether the record counts for status 1
//! match read_groups(alloc, record, &molecule)? {
//!     GroupsAnswer::Groups(groups) => { /* each group with its kind and atoms */ }
//!     GroupsAnswer::Refused(fault) => { /* the first line with a fault, and its cause */ }
//! }
//! ```
//!
//! - `group_text` returns the lines of `groups` for a record: each atom of each group with its descriptor as drawn and
//!   with all centres of its group inverted. The number is written into the first line. It is `told_of` exactly.
//! - `read_groups` returns the groups alone, or the first line with a fault and the first cause there (`IsAnswer`). The
//!   caller passes the molecule that the reader of V3000 gives for the same record, which must have no label items.
//!
//! Conditions: the record has fewer than 2^32 - 1 bytes; for `group_text`, `nodes` is from 1 to 1,000,000. Only lack of
//! memory makes a call fail; then it returns `AllocError`. The program uses `groups_of_lines` of `cip_stereogroups`,
//! which takes lines and a labeller that serves many records.
#![tactic(auto)]

mod reading;
mod telling;

pub use cip_stereogroups::{
    Group, GroupCause, GroupFault, GroupKind, GroupText, Groups, GroupsAnswer, Vertices,
};
pub use reading::read_groups;
pub use telling::group_text;

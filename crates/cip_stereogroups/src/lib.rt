//! The stereo groups of V3000 records, and both outcomes of each centre of a group.
//!
//! `groups_of` reads the groups of a record's collections, or returns the first line with a fault. `groups_of_lines`
//! returns the text of `groups`: each atom of each group with its descriptor as drawn and in the other member of the
//! group. For the second one, the centres of the group are inverted together. Uses the table of `cip_v3000` and the
//! labeller of `cip_label`.
#![tactic(auto)]

mod atoms;
mod centre_index;
mod collection_blocks;
mod faults;
mod group_outcomes;
mod group_text;
mod groups;
mod kinds;
mod names;

pub use collection_blocks::groups_of;
pub use faults::{GroupCause, GroupFault, GroupRefusal};
pub use group_text::{GroupText, groups_of_lines};
pub use groups::{Group, Groups, GroupsAnswer, Vertices};
pub use kinds::GroupKind;

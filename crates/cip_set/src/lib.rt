//! Changes a single V2000 record, in memory of its own.
//!
//! ```rust
//! match set_letter(alloc, record, 4, CentreLetter::S, 100_000, Rules::Wording2018)? {
//!     SetAnswer::Written(text) => { /* the record, in which the centre at atom 4 is S */ }
//!     SetAnswer::Refused(cause) => { /* why there is none, for example NoCentre or Tie */ }
//! }
//! match mirror_record(alloc, record)? {
//!     MirrorAnswer::Written(text) => { /* the record of the mirror image */ }
//!     MirrorAnswer::Refused(cause) => { /* Grammar, OnlyV2000 or Width */ }
//! }
//! ```
//!
//! - `set_letter` writes one wedge or hashed bond, at the first ligand of the centre whose bond can be marked, and
//!   removes other marks that have their narrow end at the centre. It is `set_answer` exactly (`answer`). The written
//!   record is read as the same drawing with this mark, and its answer gives the centre the requested letter (`gives`).
//! - `mirror_record` negates each z that isn't 0 and exchanges up and down at single bonds. It is `mirror_answer`
//!   exactly (`answer`). The written record is read as the mirror image (`reads`).
//! - Both write the record without label items, change no other byte, and make it at most 65,536 bytes longer (`few`).
//!
//! Conditions: the record has fewer than 2^32 - 1 bytes, and `nodes` is from 1 to 1,000,000. Only lack of memory makes
//! a call fail; then it returns `AllocError`. The program uses `set_letter_in_lines` and `mirror_lines` of `cip_edit`,
//! which take lines and a labeller that serves many records. Laws: `set_records_are_read` and `mirrored_records_mirror`
//! in `cip_laws` say the same of the definitions.
#![tactic(auto)]

mod mirror;
mod setting;

pub use cip_edit::{MirrorAnswer, MirrorRefusal, SetAnswer, SetRefusal, mirror_lines};
pub use mirror::mirror_record;
pub use setting::set_letter;

//! The possible double bonds of alternating rings.
//!
//! An alternating atom has one counted double bond and lies in a ring of alternating double and single bonds.
//! `positions` lists, for each vertex, the atoms that can be the other end of its double bond in some Kekulé form.
//! `share_alternating_ring` says whether one such ring holds two atoms. Uses the search of `cip_ring`.
#![tactic(auto)]

mod alternating;
mod bond_positions;
mod bounded_walks;
mod path;
mod search;
mod shared_rings;
mod walk;

pub use bond_positions::positions;
pub use shared_rings::share_alternating_ring;

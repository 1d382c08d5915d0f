//! An ordered partition of nodes, sphere by sphere.
//!
//! `Partition` has the places of nodes in rows; the number of a place is the row at which its class begins. `PlaceTree`
//! has their parents and children. `split_classes` splits classes by keys, `refine_sphere` refines a sphere by the
//! numbers of the next one, and `flag_dirty_parents` flags the classes in which a child has a new number. Nothing
//! allocates but `reserve`. Uses the sorting of `cip_rank`.
#![tactic(auto)]

mod child_sets;
mod partition;
mod places;
mod reserved_vec;
mod splits;
mod uniform;

pub use partition::Partition;
pub use places::place::Place;
pub use places::place_tree::PlaceTree;
pub use reserved_vec::ReservedVec;
pub use splits::by_keys::ByKeys;
pub use splits::dirty::{clear_flags, flag_dirty_parents, set_flag_if};
pub use splits::refine::refine_sphere;
pub use splits::split::split_classes;
pub use uniform::is_uniform;

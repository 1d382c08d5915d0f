//! Compares the branches of a node by one rule after another.
//!
//! `Branches` follows branches sphere by sphere: `begin` takes the first sphere, `follow` the next one. A new sphere is
//! split by the keys of a rule, and the spheres inside it are refined, outermost first, in classes with a changed child
//! alone. A branch that differs from all others isn't followed further. `next_rule` and `extend_rule` apply a later
//! rule to the same places, and `Checkpoint` saves and restores ranks. `Spheres` has the same calls without the
//! branches' flags, and `ViewedTree` is a tree seen from an inner node. Uses the partition of `cip_partition`.
#![tactic(auto)]

mod branches;
mod generic;
mod growth;
mod kept;
mod ranking;
mod unresolved;
mod view;

pub use branches::Branches;
pub use generic::NodeKeys;
pub use growth::spheres::Spheres;
pub use kept::checkpoint::Checkpoint;
pub use view::ViewedTree;

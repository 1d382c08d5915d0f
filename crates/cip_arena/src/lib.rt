//! The hierarchical digraph of a root, grown sphere by sphere in reserved memory.
//!
//! `Arena::reserve` allocates for a number of nodes, `start` begins with a root, and `grow` adds a sphere and returns
//! `Grown`, or leaves all as it is if the digraph is whole or the next sphere would pass the bound. A sphere is counted
//! before it is made. The arena is a `Nodes` of `cip_digraph`.
#![tactic(auto)]

mod ancestors;
mod arena;
mod node_data;
mod sphere_sizes;
mod vertex_flags;

pub use arena::{Arena, Grown};
pub use node_data::{mean_atomic_key, z_of};
pub use sphere_sizes::duplicate_count;

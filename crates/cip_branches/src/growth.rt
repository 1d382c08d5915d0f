// Branches that grow by a sphere.
pub mod follow;
pub mod grow;
pub mod next_rule;
pub mod spheres;

// Roots that two spheres rank, without a digraph.
pub mod rank_two_spheres;
pub mod two_sphere_branches;
pub mod two_sphere_pairs;
pub mod two_sphere_size;
pub mod two_spheres;

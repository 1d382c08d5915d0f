// Their places, ranked sphere by sphere.
pub mod pass;
pub mod place_count;
pub mod refine;
pub mod split;

// The steps of settling a sphere.
pub mod checkpoint;
pub mod following;
pub mod recording;
pub mod settling;

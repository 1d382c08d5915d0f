// What drawings show, and other drawings of the same molecule.
pub mod axes;
pub mod cumulenes;
pub mod directions;
pub mod geometry;
pub mod marking;
pub mod marks;
pub mod reflection;
pub mod renumbering;

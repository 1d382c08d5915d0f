// Places of nodes.
pub mod copies;
pub mod place;
pub mod place_tree;

// Short lists: ligands and places of them.
pub mod at_most_four;
pub mod ligands;
pub mod places;

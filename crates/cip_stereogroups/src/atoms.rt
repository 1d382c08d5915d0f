// Lists and sets of atoms.
pub mod atom_index;
pub mod atom_lists;
pub mod atom_set;

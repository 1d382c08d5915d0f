// Lines of a molfile, changed in their columns.
pub mod atom_edits;
pub mod bond_edits;
pub mod columns;
pub mod line_edits;

// A centre, and the bond that can show its sense.
pub mod eligible_bond;
pub mod find_centre;
pub mod mark_choice;
pub mod marks;

// Rows of a table, and the calls that each makes.
pub mod lists;
pub mod making;
pub mod row;

// Molecules as rows have them.
pub mod molecules;
pub mod units;
pub mod written;

// What is answered of a unit.
pub mod centre_letter;
pub mod descriptor;
pub mod outcome;
pub mod refusal;

// Digraphs that are grown and ranked.
pub mod deciding;
pub mod growing;
pub mod inside;
pub mod nodes;
pub mod roots;
pub mod settled;
pub mod twice;

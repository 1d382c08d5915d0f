// Digraphs and their rules.
pub mod alternation;
pub mod digraphs;
pub mod ring_search;
pub mod rings;
pub mod rules;
pub mod ties;
pub mod trees;

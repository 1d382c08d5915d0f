// Lines of a table, and the words of each.
pub mod block_lines;
pub mod continuation;
pub mod rows;
pub mod word_splitter;

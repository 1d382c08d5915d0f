// Workers that meet.
pub mod meeting;
pub mod rounds;
pub mod watched;

// Records and molfiles as rows have them.
pub mod built;
pub mod molfiles;
pub mod records;

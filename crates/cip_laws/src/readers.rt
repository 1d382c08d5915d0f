// What readers give of records.
pub mod framing;
pub mod items;
pub mod printed;
pub mod records;
pub mod tables;
pub mod text;
pub mod v2000;
pub mod v3000;

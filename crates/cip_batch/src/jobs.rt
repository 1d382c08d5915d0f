// Jobs, and the workers that do them.
pub mod batch;
pub mod job;
pub mod pool;
pub mod processor;
pub mod workers;

// Descriptors, and which one a sense gives.
pub mod descriptor_of;
pub mod descriptors;

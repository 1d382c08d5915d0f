// Keys of descriptors, and whether there are any.
pub mod any_descriptor;
pub mod descriptor_keys;
pub mod descriptor_map;
pub mod descriptor_values;
pub mod no_descriptors;

// What is decided between two branches.
use cip_mol::Rule;
use std::cmp::Ordering;

/// Which rule decides between two branches, in which sphere, and how.
#[derive(Clone, Copy)]
pub struct Decision {
    pub side: Ordering,
    pub rule: Rule,
    pub sphere: u32,
}

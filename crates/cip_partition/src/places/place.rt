// What is known of one place.

/// The node at a place, the branch that it is in, its parent, and the range of places in which its children are.
#[derive(Clone, Copy)]
pub struct Place {
    pub node: u32,
    pub branch: u32,
    pub parent_place: u32,
    pub first: u32,
    pub count: u32,
}

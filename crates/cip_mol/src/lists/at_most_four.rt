// Lists of at most four.
ghost use Rattle.std.specs.Prelude.{◌≡◌, ◌<◌, ◌≤◌, ◌++◌, ◌∷◌, [], length, slice_get, Some};

use std::marker::Model;

/// As many ligands as a unit has at most.
const MOST: usize = 4;

/// A list of at most four items, which takes no memory. Contracts see the list of them.
#[derive(Drop)]
pub struct AtMostFour<T> {
    count: usize,
    items: [T; MOST],
}

impl<T> Model for AtMostFour<T> {
    ghost use Rattle.std.specs.Prelude.{◌≤◌, List, take};

    ghost Value = { List T };

    ghost view = { λ list. take list.count list.items };

    ghost invariant = { λ list. list.count ≤ 4 };
}

impl<T: Copy + Default> AtMostFour<T> {
    /// The empty list.
    pub fn new() -> AtMostFour<T>
        ensures { result ≡ [] }
    {
        AtMostFour {
            count: 0,
            items: [T::default(); MOST],
        }
    }

    /// Adds an item at the end.
    pub fn push(&mut self, item: T)
        requires { length self.old < 4 }
        ensures { self.new ≡ self.old ++ item ∷ [] }
    {
        self.items[self.count] = item;
        self.count += 1;
    }

    /// How many items there are.
    pub fn len(&self) -> u32
        ensures counted { result ≡ length self.now }
        ensures few { length self.now ≤ 4 }
    {
        self.as_slice().len() as u32
    }

    /// The item at a place, counted from 0.
    pub fn get(&self, place: u32) -> &T
        requires { place < length self.now }
        ensures { slice_get self.now place ≡ Some result.now }
    {
        &self.as_slice()[place as usize]
    }

    /// The items in their order.
    pub fn as_slice(&self) -> &[T]
        ensures value { result.now ≡ self.now }
        ensures few { length self.now ≤ 4 }
    {
        &self.items[..self.count]
    }
}

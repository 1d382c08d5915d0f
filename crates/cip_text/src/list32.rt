// A list of fewer than 2^32 items.
ghost use Rattle.std.specs.Prelude.{◌≡◌, ◌<◌, ◌-◌, ◌^◌, ◌++◌, ◌∷◌, [], length, slice_get, OnOk, OnErr, Some};

use std::alloc::{AllocError, Global};
use std::marker::Model;

/// A list of fewer than 2^32 items. Contracts see it as the list of them.
#[derive(Drop)]
pub struct List32<T> {
    items: Vec<T>,
}

impl<T> Model for List32<T> {
    ghost use Rattle.std.specs.Prelude.{List, length, ◌<◌, ◌^◌};

    ghost Value = { List T };

    ghost view = { λ list. list.items.items };

    ghost invariant = { λ list. length list.items.items < 2 ^ 32 };
}

impl<T: Drop> List32<T> {
    /// The empty list. It takes no memory.
    pub fn new(alloc: Global) -> List32<T>
        ensures { result ≡ [] }
    {
        List32 {
            items: Vec::new(alloc),
        }
    }

    /// Adds an item at the end. A refusal leaves the list as it was.
    pub fn push(&mut self, item: T) -> Result<(), AllocError>
        requires { length self.old < 2 ^ 32 - 1 }
        ensures added { OnOk result (self.new ≡ self.old ++ item ∷ []) }
        ensures refused { OnErr result (self.new ≡ self.old) }
    {
        self.items.push(item)?;
        Ok(())
    }

    /// How many items there are.
    pub fn len(&self) -> u32
        ensures counted { result ≡ length self.now }
        ensures bounded { length self.now < 2 ^ 32 }
    {
        self.items.len() as u32
    }

    /// The items, lent.
    pub fn as_slice(&self) -> &[T]
        ensures { result.now ≡ self.now }
    {
        &self.items
    }

    /// The item at a place, counted from 0.
    pub fn get(&self, place: u32) -> &T
        requires { place < length self.now }
        ensures { slice_get self.now place ≡ Some result.now }
    {
        &self.items[place as usize]
    }
}

// Memory that is taken at once.
ghost use Rattle.std.specs.Prelude.{◌≡◌, ◌<◌, ◌≤◌, ◌+◌, ◌^◌, ◌++◌, ◌∷◌, [], IfOk, length, replicate, slice_set};

use std::alloc::{AllocError, Global};
use std::marker::Model;

/// Items, and room for n. All memory is taken when it is made, and none of it is touched before it is used.
#[derive(Drop)]
pub struct ReservedVec<T> {
    pub items: Vec<T>,
    room: u32,
}

impl<T> Model for ReservedVec<T> {
    ghost use Rattle.std.specs.Prelude.{◌≤◌, ◌<◌, ◌^◌, length, vec_capacity};
    ghost use Rattle.cip_partition.specs.ReservedList.{ReservedList};

    ghost Value = { ReservedList T };

    ghost view = { λ column. record { room = column.room; items = column.items.items } };

    ghost invariant = { λ column. (column.room < 2 ^ 32) × (length column.items.items ≤ column.room)
        × (column.room ≤ vec_capacity column.items) };
}

impl<T: Copy + Drop> ReservedVec<T> {
    /// No items, and room for n.
    pub fn reserve(alloc: Global, room: u32) -> Result<ReservedVec<T>, AllocError>
        ensures { IfOk result (λ column. column ≡ record { room = room; items = [] }) }
    {
        match Vec::with_capacity(alloc, room as usize) {
            Ok(items) => Ok(ReservedVec { items, room }),
            Err(error) => Err(error),
        }
    }

    /// How many items there are.
    pub fn len(&self) -> u32
        ensures count { result ≡ length self.now.items }
        ensures fits { length self.now.items ≤ self.now.room }
        ensures few { self.now.room < 2 ^ 32 }
    {
        self.items.len() as u32
    }

    /// Drops all items, and keeps the memory.
    pub fn clear(&mut self)
        ensures { self.new ≡ record self.old { items = [] } }
    {
        self.items.clear();
    }

    /// Adds an item at the end.
    pub fn push(&mut self, item: T)
        requires { length self.old.items < self.old.room }
        ensures { self.new ≡ record self.old { items = self.old.items ++ item ∷ [] } }
    {
        self.items.push_reserved(item);
    }

    /// Adds items at the end.
    pub fn push_all(&mut self, items: &[T])
        requires { length self.old.items + length items.now ≤ self.old.room }
        ensures { self.new ≡ record self.old { items = self.old.items ++ items.now } }
    {
        let _ = self.items.extend_from_slice(items);
    }

    /// The same items as these.
    pub fn copy(&mut self, items: &[T])
        requires { length items.now ≤ self.old.room }
        ensures { self.new ≡ record self.old { items = items.now } }
    {
        self.clear();
        let _ = self.items.extend_from_slice(items);
    }

    /// n items, all of them the same.
    pub fn fill(&mut self, count: u32, item: T)
        requires { count ≤ self.old.room }
        ensures { self.new ≡ record self.old { items = replicate count item } }
    {
        self.clear();
        for _ in 0..count {
            self.push(item);
        }
    }

    /// Puts an item in the place of another.
    pub fn set(&mut self, place: u32, item: T)
        requires { place < length self.old.items }
        ensures { self.new ≡ record self.old { items = slice_set self.old.items place item } }
    {
        self.items[place as usize] = item;
    }

    /// How many items there is room for.
    pub fn room(&self) -> u32
        ensures { result ≡ self.now.room }
    {
        self.room
    }

    /// The items, lent.
    pub fn as_slice(&self) -> &[T]
        ensures { result.now ≡ self.now.items }
    {
        &self.items
    }
}

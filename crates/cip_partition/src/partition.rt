// Places in rows, and their numbers.
ghost use Rattle.std.specs.Prelude.{◌≡◌, ◌<◌, ◌≤◌, ℕ, [], IfOk, length, slice_index};
ghost use Rattle.cip_partition.specs.Ranked.{with_row};
ghost use Rattle.cip_partition.specs.Parting.{PartsRows, EndsClass, is_class_start};

use crate::reserved_vec::ReservedVec;
use crate::splits::split_class::split_rows;
use cip_rank::sorting::NodeOrder;
use std::alloc::{AllocError, Global};
use std::marker::Model;

/// Places in rows, the lowest first in each sphere, and of each place its number: the row at which its class begins.
#[derive(Drop)]
pub struct Partition {
    pub(crate) rows: ReservedVec<u32>,
    pub(crate) numbers: ReservedVec<u32>,
    // the numbers of a class that is being sorted
    offsets: ReservedVec<u32>,
}

impl Model for Partition {
    ghost use Rattle.cip_partition.specs.Ranked.{Ranked, KeepOrder};

    ghost Value = { Ranked };

    ghost view = { λ order. record {
      room = order.rows.room;
      rows = order.rows.items;
      numbers = order.numbers.items;
    } };

    ghost invariant = { λ order. KeepOrder order.rows order.numbers order.offsets };
}

impl Partition {
    /// No rows and no numbers, and room for n.
    pub fn reserve(alloc: Global, room: u32) -> Result<Partition, AllocError>
        ensures { IfOk result (λ order. order ≡ record { room = room; rows = []; numbers = [] }) }
    {
        let Ok(rows) = ReservedVec::reserve(alloc, room) else {
            return Err(AllocError);
        };
        let Ok(numbers) = ReservedVec::reserve(alloc, room) else {
            return Err(AllocError);
        };
        let Ok(offsets) = ReservedVec::reserve(alloc, room) else {
            return Err(AllocError);
        };
        Ok(Partition {
            rows,
            numbers,
            offsets,
        })
    }

    /// Drops all rows and numbers, and keeps the memory.
    pub fn clear(&mut self)
        ensures { self.new ≡ record { room = self.old.room; rows = []; numbers = [] } }
    {
        self.rows.clear();
        self.numbers.clear();
    }

    /// How many rows there are.
    pub fn row_count(&self) -> u32
        ensures count { result ≡ length self.now.rows }
        ensures below { (k : ℕ) → k < length self.now.rows → slice_index self.now.rows k < length self.now.numbers }
    {
        self.rows.len()
    }

    /// Adds a place, the next one by count, in a row at the end.
    pub fn push(&mut self, number: u32)
        requires rows { length self.old.rows < self.old.room }
        requires numbers { length self.old.numbers < self.old.room }
        ensures { self.new ≡ with_row number self.old }
    {
        let place = self.numbers.len();
        self.rows.push(place);
        self.numbers.push(number);
    }

    /// The places by row, each of which has a number.
    pub fn rows(&self) -> &[u32]
        ensures rows { result.now ≡ self.now.rows }
        ensures below { (k : ℕ) → k < length self.now.rows → slice_index self.now.rows k < length self.now.numbers }
    {
        self.rows.as_slice()
    }

    /// The place in a row.
    pub fn place(&self, row: u32) -> u32
        requires { row < length self.now.rows }
        ensures place { result ≡ slice_index self.now.rows row }
        ensures below { result < length self.now.numbers }
    {
        self.rows.as_slice()[row as usize]
    }

    /// The number of a place.
    pub fn number(&self, place: u32) -> u32
        requires { place < length self.now.numbers }
        ensures { result ≡ slice_index self.now.numbers place }
    {
        self.numbers.as_slice()[place as usize]
    }

    /// The numbers by place.
    pub fn numbers(&self) -> &[u32]
        ensures { result.now ≡ self.now.numbers }
    {
        self.numbers.as_slice()
    }

    /// Whether a class begins at a row and goes on in the next one.
    pub fn is_class_start(&self, row: u32, to: u32) -> bool
        requires some { row < to }
        requires within { to ≤ length self.now.rows }
        ensures { result ≡ is_class_start self.now.rows self.now.numbers row to }
    {
        row + 1 < to && self.number(self.place(row + 1)) == row
    }

    /// The row after the class that begins at a row.
    pub fn class_end(&self, first: u32, to: u32) -> u32
        requires some { first < to }
        requires within { to ≤ length self.now.rows }
        ensures { EndsClass self.now.rows self.now.numbers first to result }
    {
        let number = self.number(self.place(first));
        let mut past = first + 1;
        while past < to && self.number(self.place(past)) == number {
            past += 1;
        }
        past
    }

    /// Sorts the places in the rows of a class by an order, and gives each the row at which its new class begins.
    pub fn split_class<S: NodeOrder>(&mut self, by: &S, first: u32, past: u32)
        requires nodes { S.nodes by.now ≡ length self.old.numbers }
        requires ordered { first ≤ past }
        requires within { past ≤ length self.old.rows }
        ensures parted { PartsRows (S.order by.now) first past self.old.rows self.new.rows self.old.numbers
            self.new.numbers }
        ensures room { self.new.room ≡ self.old.room }
    {
        let rows = &mut self.rows;
        let numbers = &mut self.numbers;
        split_rows(
            by,
            &mut rows.items,
            first,
            past,
            &mut self.offsets,
            &mut numbers.items,
        );
    }
    /// Puts places into other rows, and gives them other numbers.
    pub fn restore(&mut self, rows: &[u32], numbers: &[u32])
        requires rows { length rows.now ≤ self.old.room }
        requires numbers { length numbers.now ≤ self.old.room }
        requires below { (k : ℕ) → k < length rows.now → slice_index rows.now k < length numbers.now }
        ensures { self.new ≡ record self.old { rows = rows.now; numbers = numbers.now } }
    {
        self.rows.copy(rows);
        self.numbers.copy(numbers);
    }
}

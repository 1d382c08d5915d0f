// Places and rows doubled.
ghost use Rattle.std.specs.Prelude.{◌≡◌, ◌<◌, ◌≤◌, ◌+◌, ◌++◌, ◌^◌, ◌∷◌, [], ℕ, false, length, map, replicate, slice_index};
ghost use Rattle.cip_partition.specs.PlaceTree.{IsFamily};
ghost use Rattle.cip_partition.specs.Twins.{moved_on, twice, twin_place, twins_from, pairs, twin_kin};
ghost use Rattle.cip_partition.specs.Twins.{twin_ranked, twin_wanted};

use crate::partition::Partition;
use crate::places::place::Place;
use crate::places::place_tree::PlaceTree;
use crate::reserved_vec::ReservedVec;

// A number moved on by a number of places; one beyond the count is after all copies.
fn moved_on(by: u32, count: u32, number: u32) -> u32
    requires few { by + count < 2 ^ 32 }
    requires twice { count + count < 2 ^ 32 }
    ensures { result ≡ moved_on by count number }
{
    if number < count {
        by + number
    } else {
        count + count
    }
}

// Twice a row; one beyond the count is after all rows.
fn twice(count: u32, number: u32) -> u32
    requires { count + count < 2 ^ 32 }
    ensures { result ≡ twice count number }
{
    if number < count {
        number + number
    } else {
        count + count
    }
}

// The second copy of a place: its node, and its branch, parent and children moved on.
fn twin_place(node: u32, by: u32, count: u32, place: Place) -> Place
    requires few { by + count < 2 ^ 32 }
    requires twice { count + count < 2 ^ 32 }
    ensures { result ≡ twin_place node by count place }
{
    Place {
        node,
        branch: moved_on(by, count, place.branch),
        parent_place: moved_on(by, count, place.parent_place),
        first: moved_on(by, count, place.first),
        count: place.count,
    }
}

impl ReservedVec<Place> {
    // Adds places moved on, each of which is its own node.
    fn push_moved(&mut self, by: u32, count: u32, places: &[Place])
        requires room { length self.old.items + length places.now ≤ self.old.room }
        requires few { by + count < 2 ^ 32 }
        requires twice { count + count < 2 ^ 32 }
        ensures { self.new ≡ record self.old {
          items = self.old.items ++ twins_from (length self.old.items) by count
              places.now;
        } }
    {
        for place in places {
            let node = self.len();
            self.push(twin_place(node, by, count, *place));
        }
    }
}

impl ReservedVec<u32> {
    // Adds the double of each number.
    fn push_twice(&mut self, count: u32, numbers: &[u32])
        requires room { length self.old.items + length numbers.now ≤ self.old.room }
        requires twice { count + count < 2 ^ 32 }
        ensures { self.new ≡ record self.old { items = self.old.items ++ map (twice count) numbers.now } }
    {
        for number in numbers {
            self.push(twice(count, *number));
        }
    }

    // Writes each place and its copy.
    fn write_pairs(&mut self, count: u32, places: &[u32])
        requires room { length places.now + length places.now ≤ self.old.room }
        requires twice { count + count < 2 ^ 32 }
        requires below { (k : ℕ) → k < length places.now → slice_index places.now k < count }
        ensures { self.new ≡ record self.old { items = pairs count places.now } }
    {
        self.clear();
        for place in places {
            self.push(*place);
            self.push(count + *place);
        }
    }
}

impl PlaceTree {
    /// The places of another one, and their copies.
    pub fn write_copies(&mut self, from: &PlaceTree)
        requires { length from.now.place_parents + length from.now.place_parents ≤ self.old.room }
        ensures twins { self.new ≡ twin_kin self.old.room from.now }
        ensures family { IsFamily from.now }
    {
        let count = from.len();
        let _room = self.len();
        let places = from.places.as_slice();
        self.places.clear();
        self.places.push_moved(0, count, places);
        self.places.push_moved(count, count, places);
    }
}

impl Partition {
    /// The rows of another one, each followed by one of the copy, and their numbers.
    pub fn write_copies(&mut self, from: &Partition)
        requires room { length from.now.numbers + length from.now.numbers ≤ self.old.room }
        requires rows { length from.now.rows ≤ length from.now.numbers }
        ensures twins { self.new ≡ twin_ranked self.old.room (length from.now.numbers) from.now }
        ensures below { (k : ℕ) → k < length from.now.rows → slice_index from.now.rows k < length from.now.numbers }
    {
        let count = from.numbers.len();
        let _rows = from.row_count();
        self.rows.write_pairs(count, from.rows.as_slice());
        self.numbers.clear();
        self.numbers.push_twice(count, from.numbers.as_slice());
        self.numbers.push_twice(count, from.numbers.as_slice());
    }
}

impl ReservedVec<u32> {
    /// Writes twice the rows at which spheres begin, and after them that of one without places.
    pub fn write_starts(&mut self, count: u32, starts: &[u32], rows: u32)
        requires room { length starts.now < self.old.room }
        requires twice { count + count < 2 ^ 32 }
        requires rows { rows ≤ count }
        ensures { self.new ≡ record self.old { items = map (twice count) starts.now ++ (rows + rows) ∷ [] } }
    {
        self.clear();
        self.push_twice(count, starts);
        self.push(rows + rows);
    }
}

impl ReservedVec<bool> {
    // Adds n flags that aren't set.
    fn push_unset(&mut self, count: u32)
        requires { length self.old.items + count ≤ self.old.room }
        ensures { self.new ≡ record self.old { items = self.old.items ++ replicate count false } }
    {
        for _ in 0..count {
            self.push(false);
        }
    }

    /// The flags of branches, and of their copies.
    pub fn write_unresolved(&mut self, count: u32, unresolved: &[bool])
        requires tops { length unresolved.now ≤ count }
        requires room { count + length unresolved.now ≤ self.old.room }
        ensures { self.new ≡ record self.old { items = twin_wanted count unresolved.now } }
    {
        self.copy(unresolved);
        let behind = count - self.len();
        self.push_unset(behind);
        self.push_all(unresolved);
    }
}

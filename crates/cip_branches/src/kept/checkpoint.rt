// Ranks set aside, for a rule that is taken more than once from the same numbers.
ghost use Rattle.std.specs.Prelude.{◌≡◌, ◌<◌, ◌≤◌, ℕ, [], IfOk, length, slice_index};
ghost use Rattle.cip_branches.specs.Saving.{restored, saved_of};

use crate::branches::Branches;
use crate::growth::spheres::Spheres;
use cip_partition::ReservedVec;
use cip_rank::zip_results;
use std::alloc::{AllocError, Global};
use std::marker::Model;

/// The rows and numbers of branches as they were, and which were unresolved, in memory that is taken at once.
#[derive(Drop)]
pub struct Checkpoint {
    rows: ReservedVec<u32>,
    numbers: ReservedVec<u32>,
    unresolved: ReservedVec<bool>,
}

impl Model for Checkpoint {
    ghost use Rattle.cip_branches.specs.Saving.{Checkpoint, KeepSaved};

    ghost Value = { Checkpoint };

    ghost view = { λ saved. record {
      room = saved.rows.room;
      rows = saved.rows.items;
      numbers = saved.numbers.items;
      unresolved = saved.unresolved.items;
    } };

    ghost invariant = { λ saved. KeepSaved saved.rows saved.numbers saved.unresolved };
}

impl Checkpoint {
    /// Those of no branches, and room for n places.
    pub fn reserve(alloc: Global, room: u32) -> Result<Checkpoint, AllocError>
        ensures { IfOk result (λ saved. saved ≡ record { room = room; rows = []; numbers = []; unresolved = [] }) }
    {
        let ranks = zip_results(
            ReservedVec::reserve(alloc, room),
            ReservedVec::reserve(alloc, room),
        );
        let Ok(((rows, numbers), unresolved)) = zip_results(
            ranks,
            ReservedVec::reserve(alloc, room),
        ) else {
            return Err(AllocError);
        };
        Ok(Checkpoint {
            rows,
            numbers,
            unresolved,
        })
    }
}

impl Spheres {
    // Copies the rows and the numbers.
    fn save_ranks(&self, rows: &mut ReservedVec<u32>, numbers: &mut ReservedVec<u32>)
        requires rows { length self.now.place_tree.place_parents ≤ rows.old.room }
        requires numbers { length self.now.place_tree.place_parents ≤ numbers.old.room }
        ensures rows { rows.new ≡ record rows.old { items = self.now.ranked.rows } }
        ensures numbers { numbers.new ≡ record numbers.old { items = self.now.ranked.numbers } }
        ensures below { (k : ℕ) → k < length self.now.ranked.rows → slice_index self.now.ranked.rows k
            < length self.now.ranked.numbers }
        ensures count { length self.now.ranked.numbers ≡ length self.now.place_tree.place_parents }
    {
        rows.copy(self.order.rows());
        numbers.copy(self.order.numbers());
    }

    // Puts rows and numbers back.
    fn restore_ranks(&mut self, rows: &[u32], numbers: &[u32])
        requires rows { length rows.now ≡ length self.old.ranked.rows }
        requires numbers { length numbers.now ≡ length self.old.place_tree.place_parents }
        requires below { (k : ℕ) → k < length rows.now → slice_index rows.now k < length numbers.now }
        ensures { self.new ≡ record self.old {
          ranked = record self.old.ranked { rows = rows.now; numbers = numbers.now };
          before = numbers.now;
        } }
    {
        self.order.restore(rows, numbers);
        self.before.copy(numbers);
    }
}

impl Branches {
    /// Sets the ranks aside.
    pub fn save(&self, saved: &mut Checkpoint)
        requires { length self.now.layers.place_tree.place_parents ≤ saved.old.room }
        ensures saved { saved.new ≡ saved_of saved.old.room self.now }
        ensures count { length self.now.layers.ranked.numbers ≡ length self.now.layers.place_tree.place_parents }
    {
        self.spheres.save_ranks(&mut saved.rows, &mut saved.numbers);
        saved.unresolved.copy(self.unresolved.as_slice());
    }

    /// Lets the branches be as they were when their ranks were set aside.
    pub fn restore(&mut self, saved: &Checkpoint)
        requires rows { length saved.now.rows ≡ length self.old.layers.ranked.rows }
        requires numbers { length saved.now.numbers ≡ length self.old.layers.place_tree.place_parents }
        requires unresolved { length saved.now.unresolved ≡ length self.old.unresolved }
        ensures { self.new ≡ restored saved.now self.old }
    {
        let _branches = self.unresolved.len();
        self.spheres
            .restore_ranks(saved.rows.as_slice(), saved.numbers.as_slice());
        self.unresolved.copy(saved.unresolved.as_slice());
    }
}

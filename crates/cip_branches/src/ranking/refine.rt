// Spheres refined from the outside inwards.
ghost use Rattle.std.specs.Prelude.{◌≡◌, ◌<◌, ◌≤◌, ◌+◌, ◌↔◌, ℕ, true, false, length};
ghost use Rattle.cip_partition.specs.Kids.{kids_of, by_kids};
ghost use Rattle.cip_partition.specs.Parting.{KeepsSphere};
ghost use Rattle.cip_branches.specs.Refining.{Refines};
ghost use Rattle.cip_partition.specs.Rows.{IsRow, AreClassed, OrdersPlaces};
ghost use Rattle.cip_partition.specs.Stirring.{IsAbove, KnowParents, TieUnlessStirred};
ghost use Rattle.cip_branches.specs.Turning.{in_sphere, AreSpheres, AreSteadyBefore, IsInnermost, SamePlaces, StandBut};

use crate::growth::spheres::Spheres;
use cip_partition::{clear_flags, flag_dirty_parents, refine_sphere};

impl Spheres {
    // Refines the sphere in the rows `from` to `to` by the one in those from `to` to `past`. It looks only at classes
    // of two and more of which a member's child has another number than before. Says whether there is any.
    fn refine_sphere_by_next(&mut self, from: u32, to: u32, past: u32) -> bool
        requires ordered { from ≤ to }
        requires behind { to ≤ past }
        requires within { past ≤ length self.old.ranked.rows }
        requires classed { AreClassed self.old.ranked.rows self.old.ranked.numbers from to }
        requires parents { KnowParents (kids_of self.old.place_tree) self.old.place_tree.place_parents self.old.ranked.rows from to past }
        requires tie { TieUnlessStirred (kids_of self.old.place_tree) self.old.before self.old.ranked.rows
            self.old.ranked.numbers from to }
        ensures ordered { OrdersPlaces (IsRow self.old.ranked.rows from to) (by_kids (kids_of self.old.place_tree)
            self.old.ranked.numbers) self.new.ranked.numbers }
        ensures kept { KeepsSphere from to self.old.ranked.rows self.new.ranked.rows self.old.ranked.numbers
            self.new.ranked.numbers }
        ensures looked { result ≡ true ↔ ((number : ℕ) × IsAbove self.old.place_tree.place_parents self.old.ranked.rows self.old.before
            self.old.ranked.numbers to past number) }
        ensures still { result ≡ false → self.new ≡ self.old }
        ensures others { self.new ≡ record self.old { ranked = self.new.ranked } }
        ensures room { self.new.ranked.room ≡ self.old.ranked.room }
    {
        let flags = &mut self.flags;
        if flag_dirty_parents(
            &self.family,
            &self.order,
            self.before.as_slice(),
            to,
            past,
            &mut flags.items,
        ) {
            let sets = &mut self.sets;
            refine_sphere(
                &self.family,
                &mut self.order,
                from,
                to,
                &flags.items,
                &mut sets.items,
            );
            clear_flags(&mut flags.items, from, to);
            true
        } else {
            false
        }
    }

    /// Refines all spheres up to `far` by the one after, which has its new numbers. If a sphere is unchanged, so are
    /// all further in. Says which one is the innermost that was looked at, `far + 1` where none was.
    pub(crate) fn refine_inwards(&mut self, far: u32, last: u32) -> u32
        requires far { far < last }
        requires last { last + 2 ≡ length self.old.starts }
        requires spheres { AreSpheres (kids_of self.old.place_tree) self.old.place_tree.place_parents self.old.ranked.rows self.old.starts last
            self.old.ranked.numbers }
        requires steady { AreSteadyBefore (kids_of self.old.place_tree) self.old.ranked.rows self.old.starts far
            self.old.before self.old.ranked.numbers }
        ensures refined { Refines (kids_of self.old.place_tree) (in_sphere self.old.ranked.rows self.old.starts) far 0
            self.old.ranked.numbers self.new.ranked.numbers }
        ensures spheres { AreSpheres (kids_of self.old.place_tree) self.old.place_tree.place_parents self.new.ranked.rows self.old.starts last
            self.new.ranked.numbers }
        ensures places { SamePlaces self.old.ranked.rows self.new.ranked.rows self.old.starts }
        ensures inner { IsInnermost self.old.place_tree.place_parents self.old.ranked.rows self.old.starts result far self.old.before
            self.old.ranked.numbers self.new.ranked.numbers }
        ensures stand { StandBut self.old.ranked.rows self.old.starts result far self.old.ranked.numbers
            self.new.ranked.numbers }
        ensures others { self.new ≡ record self.old { ranked = self.new.ranked } }
        ensures room { self.new.ranked.room ≡ self.old.ranked.room }
    {
        let mut inner = far + 1;
        while inner > 0 {
            let t = inner - 1;
            let from = self.first_row(t);
            let to = self.first_row(t + 1);
            let past = self.first_row(t + 2);
            if !self.refine_sphere_by_next(from, to, past) {
                return inner;
            }
            inner = t;
        }
        0
    }
}

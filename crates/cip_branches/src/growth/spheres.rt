// All columns of branches.
ghost use Rattle.std.specs.Prelude.{◌≡◌, ◌<◌, ◌≤◌, ◌+◌, ◌^◌, [], IfOk, length, slice_index};

use cip_partition::{Partition, PlaceTree, ReservedVec};
use cip_rank::{zip_ok, zip_results};
use std::alloc::{AllocError, Global};
use std::marker::Model;

/// Places sphere by sphere, in memory that is taken at once.
#[derive(Drop)]
pub struct Spheres {
    pub(crate) family: PlaceTree,
    pub(crate) order: Partition,
    // the first row of each sphere, and the row after the last one
    pub(crate) starts: ReservedVec<u32>,
    // of each place its number before the pass that is under way
    pub(crate) before: ReservedVec<u32>,
    // of each row whether the class that begins there is to be looked at: none between turns
    pub(crate) flags: ReservedVec<bool>,
    // at each place's children their numbers, the highest first
    pub(crate) sets: ReservedVec<u32>,
}

impl Model for Spheres {
    ghost use Rattle.cip_branches.specs.SphereColumns.{SphereColumns, KeepLayers};

    ghost Value = { SphereColumns };

    ghost view = { λ spheres. record {
      place_tree = spheres.family;
      ranked = spheres.order;
      starts = spheres.starts.items;
      before = spheres.before.items;
    } };

    ghost invariant = { λ spheres. KeepLayers spheres.family spheres.order spheres.starts spheres.before spheres.flags
        spheres.sets };
}

impl Spheres {
    /// Nothing, and room for n places.
    pub fn reserve(alloc: Global, room: u32) -> Result<Spheres, AllocError>
        requires { room + 1 < 2 ^ 32 }
        ensures { IfOk result (λ spheres. spheres ≡ record {
          place_tree = record { room = room; nodes = []; branches = []; place_parents = []; firsts = []; counts = [] };
          ranked = record { room = room; rows = []; numbers = [] };
          starts = [];
          before = [];
        }) }
    {
        let places = zip_results(
            PlaceTree::reserve(alloc, room),
            ReservedVec::reserve(alloc, room + 1),
        );
        // the columns that a pass needs
        let pass = zip_results(
            ReservedVec::reserve(alloc, room),
            ReservedVec::reserve(alloc, room),
        );
        let columns = zip_results(pass, ReservedVec::reserve(alloc, room));
        let Ok(small) = zip_results(places, columns) else {
            return Err(AllocError);
        };
        // proof: what is reserved last is never dropped
        let Ok((((family, starts), ((before, flags), sets)), order)) = zip_ok(
            small,
            Partition::reserve(alloc, room),
        ) else {
            return Err(AllocError);
        };
        Ok(Spheres {
            family,
            order,
            starts,
            before,
            flags,
            sets,
        })
    }

    /// The first row of a sphere, which for the one after the last is the row after all.
    pub(crate) fn first_row(&self, sphere: u32) -> u32
        requires { sphere < length self.now.starts }
        ensures value { result ≡ slice_index self.now.starts sphere }
        ensures fits { length self.now.ranked.rows ≤ self.now.place_tree.room }
        ensures few { length self.now.starts < 2 ^ 32 }
    {
        self.starts.as_slice()[sphere as usize]
    }
}

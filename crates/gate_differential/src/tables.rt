// The tables by which digraphs are made and ranked.
ghost use Rattle.std.specs.Prelude.{◌<◌, ◌^◌, IfOk};
ghost use Rattle.gate_differential.specs.Tables.{HaveRoom};

use cip_arena::Arena;
use cip_aux_rank::LigandBranches;
use cip_constitution::Work;
use cip_rank::zip_ok;
use std::alloc::{AllocError, Global};

/// One arena, what settles its roots, and what looks at them where they are whole.
#[derive(Drop)]
pub struct Tables {
    pub arena: Arena,
    pub work: Work,
    pub nearer: LigandBranches,
}

impl Tables {
    /// Room for digraphs of n nodes.
    pub fn reserve(alloc: Global, nodes: u32) -> Result<Tables, AllocError>
        requires some { 0 < nodes }
        requires few { nodes < 2 ^ 31 }
        ensures { IfOk result HaveRoom }
    {
        let growing = zip_ok(Arena::reserve(alloc, nodes)?, Work::reserve(alloc, nodes))?;
        let ((arena, work), nearer) = zip_ok(growing, LigandBranches::reserve(alloc, nodes))?;
        Ok(Tables {
            arena,
            work,
            nearer,
        })
    }
}

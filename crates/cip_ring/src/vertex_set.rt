// A set of vertices that keeps the order in which they came, and a column of flags by which it is asked.
ghost use Rattle.std.specs.Prelude.{◌≡◌, ◌<◌, ◌∷◌, [], cond, IfOk, OnOk, length, slice_index, slice_set};
ghost use Rattle.cip_digraph.specs.rings.Alternating.{is_in};
ghost use Rattle.cip_digraph.specs.rings.SmallRings.{with_new};
ghost use Rattle.cip_ring.specs.VertexFlags.{AreFlags};

use std::alloc::{AllocError, Global};
use std::marker::Model;

/// How many vertices most searches meet at most.
const USUAL_VERTICES: usize = 32;

/// Vertices in the order in which they were added, none twice. Contracts see the list of them. It is asked in one step
/// about a vertex that its flags reach, and emptied at the cost of what it holds, so it can serve many searches.
#[derive(Drop)]
pub struct VertexSet {
    vertices: Vec<u32>,
    flags: Vec<bool>,
}

impl Model for VertexSet {
    ghost use Rattle.std.specs.Prelude.{ℕ, List};
    ghost use Rattle.cip_ring.specs.VertexFlags.{AreFlags};

    ghost Value = { List ℕ };

    ghost view = { λ set. set.vertices.items };

    ghost invariant = { λ set. AreFlags set.vertices.items set.flags.items };
}

impl VertexSet {
    /// No vertex, with flags for those below a number.
    pub fn new(alloc: Global, flags: usize) -> Result<VertexSet, AllocError>
        ensures { IfOk result (λ set. set ≡ []) }
    {
        match vec![in alloc; false; flags] {
            Ok(flags) => Ok(VertexSet {
                vertices: Vec::new(alloc),
                flags,
            }),
            Err(fault) => Err(fault),
        }
    }

    /// How many vertices there are.
    pub fn len(&self) -> usize
        ensures { result ≡ length self.now }
    {
        self.vertices.len()
    }

    /// The vertex that came at a place, counted from 0.
    pub fn get(&self, place: usize) -> u32
        requires { place < length self.now }
        ensures { result ≡ slice_index self.now place }
    {
        self.vertices[place]
    }

    /// Whether a vertex is there.
    pub fn contains(&self, vertex: u32) -> bool
        ensures { result ≡ is_in vertex self.now }
    {
        match self.flags.get(vertex as usize) {
            Some(flag) => *flag,
            None => self.vertices.contains(&vertex),
        }
    }

    /// Adds a vertex that is wanted, where it isn't there.
    pub fn insert_if(&mut self, unresolved: bool, vertex: u32) -> Result<(), AllocError>
        ensures { OnOk result (self.new ≡ with_new self.old (cond unresolved (vertex ∷ []) [])) }
    {
        if unresolved && !self.contains(vertex) {
            let Ok(()) = self.vertices.push(vertex) else {
                return Err(AllocError);
            };
            set_flag(&mut self.flags, vertex, true);
        }
        Ok(())
    }

    /// Makes room for as many vertices as most searches meet, at once.
    pub(crate) fn reserve(&mut self) -> Result<(), AllocError>
        ensures { self.new ≡ self.old }
    {
        self.vertices.reserve(USUAL_VERTICES)
    }

    /// Takes all vertices out. The memory stays.
    pub fn clear(&mut self)
        ensures { self.new ≡ [] }
    {
        clear_flags(&mut self.flags, &self.vertices);
        self.vertices.clear();
    }
}

// Sets the flag of a vertex, where it has one.
fn set_flag(flags: &mut Vec<bool>, vertex: u32, flag: bool)
    ensures { flags.new.items ≡ slice_set flags.old.items vertex flag }
{
    if (vertex as usize) < flags.len() {
        flags[vertex as usize] = flag;
    }
}

fn clear_flags(flags: &mut Vec<bool>, vertices: &[u32])
    requires { AreFlags vertices.now flags.old.items }
    ensures { AreFlags [] flags.new.items }
{
    for vertex in vertices {
        set_flag(flags, *vertex, false);
    }
}

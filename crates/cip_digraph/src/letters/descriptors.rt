// The descriptors of nodes.
ghost use Rattle.std.specs.Prelude.{◌≡◌, ◌<◌, ◌+◌, ◌^◌, ◌-◌, ℕ, [], ◌∷◌, ◌++◌, length, None, IfOk};
ghost use Rattle.std.specs.List.{slice_index_or, slice_set};

use cip_mol::Descriptor;
use std::alloc::{AllocError, Global};
use std::marker::Model;

/// The descriptor of each node, or none, in memory that was reserved.
#[derive(Drop)]
pub struct Descriptors {
    bound: u32,
    descriptors: Vec<Option<Descriptor>>,
}

impl Model for Descriptors {
    ghost use Rattle.cip_digraph.specs.NodeDescriptors.{NodeDescriptors};

    ghost Value = { NodeDescriptors };

    ghost use Rattle.cip_digraph.specs.DescriptorColumns.{descriptors_of, HaveRoom};

    ghost view = { descriptors_of };

    ghost invariant = { HaveRoom };
}

impl Descriptors {
    /// Those of no node, with room for `bound` of them. All memory is taken here.
    pub fn reserve(alloc: Global, bound: u32) -> Result<Descriptors, AllocError>
        ensures { IfOk result (λ made. made ≡ record { bound = bound; descriptors = [] }) }
    {
        match Vec::with_capacity(alloc, bound as usize) {
            Ok(descriptors) => Ok(Descriptors { bound, descriptors }),
            Err(error) => Err(error),
        }
    }

    /// Drops all descriptors, and keeps the room.
    pub fn clear(&mut self)
        ensures { self.new ≡ record self.old { descriptors = [] } }
    {
        self.descriptors.clear();
    }

    /// Adds that of the next node.
    pub fn push(&mut self, descriptor: Option<Descriptor>)
        requires { length self.old.descriptors < self.old.bound }
        ensures { self.new ≡ record self.old { descriptors = self.old.descriptors ++ descriptor ∷ [] } }
    {
        let _ = self.descriptors.push(descriptor);
    }

    /// How many nodes there are.
    pub fn len(&self) -> u32
        ensures { result ≡ length self.now.descriptors }
    {
        self.descriptors.len() as u32
    }

    /// The descriptor of a node.
    pub fn get(&self, node: u32) -> Option<Descriptor>
        requires { node < length self.now.descriptors }
        ensures { result ≡ slice_index_or self.now.descriptors node None }
    {
        self.descriptors[node as usize]
    }

    /// Gives a node a descriptor, or none.
    pub fn set(&mut self, node: u32, descriptor: Option<Descriptor>)
        requires { node < length self.old.descriptors }
        ensures { self.new ≡ record self.old { descriptors = slice_set self.old.descriptors node descriptor } }
    {
        self.descriptors[node as usize] = descriptor;
    }
}

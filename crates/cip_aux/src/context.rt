// The descriptors that count at a node.
ghost use Rattle.std.specs.Prelude.{◌≡◌};
ghost use Rattle.cip_aux.specs.Views.{sight_of};

use crate::whole_digraph::WholeDigraph;
use cip_digraph::{Descriptors, Nodes};
use std::marker::Model;

/// A node of a whole digraph, and the descriptors of the nodes strictly below it. Those of others don't count.
#[derive(Drop)]
pub struct InnerContext<'a, N: Nodes> {
    whole: &'a WholeDigraph<'a, N>,
    from: u32,
    descriptors: &'a Descriptors,
}

impl<'a, N: Nodes> Model for InnerContext<'a, N> {
    ghost use Rattle.cip_aux.specs.InnerContext.{InnerContext as AnyInner};
    ghost use Rattle.cip_aux.specs.Views.{sight_of};

    ghost Value = { AnyInner };

    ghost view = { λ inner. record {
      sight = sight_of inner.whole.now;
      from = inner.from;
      descriptors = inner.descriptors.now.descriptors;
    } };
}

impl<'a, N: Nodes> InnerContext<'a, N> {
    /// The descriptors below a node.
    pub fn new(
        whole: &'a WholeDigraph<'a, N>,
        from: u32,
        descriptors: &'a Descriptors,
    ) -> InnerContext<'a, N>
        ensures { result ≡ record { sight = sight_of whole.now; from = from; descriptors = descriptors.now.descriptors } }
    {
        InnerContext {
            whole,
            from,
            descriptors,
        }
    }

    /// The digraph.
    pub fn whole(&self) -> &WholeDigraph<'a, N>
        ensures { sight_of result.now ≡ self.now.sight }
    {
        self.whole
    }

    /// The node.
    pub fn from(&self) -> u32
        ensures { result ≡ self.now.from }
    {
        self.from
    }

    /// The descriptors by number.
    pub fn descriptors(&self) -> &Descriptors
        ensures { result.now.descriptors ≡ self.now.descriptors }
    {
        self.descriptors
    }
}

// Descriptors by the numbers of nodes.
ghost use Rattle.std.specs.Prelude.{◌≡◌, ◌<◌, length, List, None};
ghost use Rattle.std.specs.List.{slice_index_or};
ghost use Rattle.std.specs.declared.option.Option.{Option};
ghost use Rattle.cip_mol.specs.declared.labels.descriptor.Descriptor.{Descriptor as AnyDescriptor};

use cip_digraph::Descriptors;
use cip_mol::Descriptor;

/// What gives the descriptors of nodes.
pub trait DescriptorMap {
    /// The descriptor of each node, or none, by number.
    ghost descriptors: { Self → List (Option AnyDescriptor) };

    /// The descriptor of a node.
    fn descriptor(&self, node: u32) -> Option<Descriptor>
        requires { node < length (descriptors self.now) }
        ensures { result ≡ slice_index_or (descriptors self.now) node None };
}

impl DescriptorMap for Descriptors {
    ghost descriptors = { λ all. all.descriptors };

    fn descriptor(&self, node: u32) -> Option<Descriptor> {
        self.get(node)
    }
}

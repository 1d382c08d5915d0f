// The descriptors that count at a node: those of the nodes strictly below it.
ghost use Rattle.std.specs.Prelude.{◌≡◌, ◌<◌, length};
ghost use Rattle.cip_aux.specs.Below.{is_below};
ghost use Rattle.cip_aux_rank.specs.NodeDescriptors.{descriptors_below};

use cip_digraph::Descriptors;
use cip_mol::Descriptor;
use cip_rank::Table;
use cip_rank::path_flags::parent_of;
use cip_rules::DescriptorMap;

/// Descriptors of a digraph's nodes, of which those strictly below one node count.
#[derive(Drop)]
pub struct SubtreeDescriptors<'a> {
    pub table: &'a Table,
    pub from: u32,
    pub descriptors: &'a Descriptors,
    ghost len: { length descriptors.now.descriptors ≡ length table.now.parents },
}

// Whether a node is strictly below another one: numbers fall on the way to the root, so it is met, or a lower one is.
fn is_below(table: &Table, from: u32, node: u32) -> bool
    requires { node < length table.now.parents }
    ensures { result ≡ is_below table.now.parents from node }
{
    let _count = table.len();
    if node <= from {
        false
    } else {
        let mut at = node;
        while at > from {
            at = parent_of(table, at);
        }
        at == from
    }
}

impl DescriptorMap for SubtreeDescriptors<'_> {
    ghost descriptors = { λ below. descriptors_below below.table.now.parents below.from below.descriptors.now.descriptors };

    #[tactic(auto, using(crate::proofs::lemmas::CountedDescriptors::descriptor_is))]
    fn descriptor(&self, node: u32) -> Option<Descriptor> {
        // Few nodes have a descriptor, and only for these is the way up looked at.
        let descriptor = self.descriptors.get(node);
        if descriptor.is_some() && is_below(self.table, self.from, node) {
            descriptor
        } else {
            None
        }
    }
}

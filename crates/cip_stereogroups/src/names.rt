// The names of groups.
ghost use Rattle.std.specs.Prelude.{◌≡◌, ◌<◌, ◌++◌, ◌∷◌, [], IfSome, IsNone, OnErr, OnOk, false, length, position};
ghost use Rattle.std.specs.List.{list_any};
ghost use Rattle.cip_stereogroups.specs.Names.{same_kind};

use crate::kinds::GroupKind;
use indexmap::IndexSet;
use std::alloc::{AllocError, Global};
use std::marker::Model;

/// Names of groups in the order in which they were added, none of them twice. Contracts see the list of them. No public
/// item of this crate names this type, so that crates above load no code of the set.
#[derive(Drop)]
pub struct Names {
    set: IndexSet<GroupKind>,
}

impl Model for Names {
    ghost use Rattle.std.specs.Prelude.{List};
    ghost use Rattle.cip_stereogroups.specs.declared.kinds.GroupKind.{GroupKind as AnyKind};

    ghost Value = { List AnyKind };

    ghost view = { λ names. names.set.keys };
}

impl Names {
    /// No name.
    pub fn new(alloc: Global) -> Names
        ensures { result ≡ [] }
    {
        Names {
            set: IndexSet::new(alloc),
        }
    }

    /// Adds a name that isn't there yet at the end.
    pub fn push(&mut self, kind: GroupKind) -> Result<(), AllocError>
        requires absent { list_any (same_kind kind) self.old ≡ false }
        ensures added { OnOk result (self.new ≡ self.old ++ kind ∷ []) }
        ensures kept { OnErr result (self.new ≡ self.old) }
    {
        let Ok(_) = self.set.insert(kind) else {
            return Err(AllocError);
        };
        Ok(())
    }

    /// The place of a name, from 0.
    pub fn place(&self, kind: GroupKind) -> Option<usize>
        ensures value { result ≡ position (same_kind kind) self.now }
        ensures within { IfSome result (λ place. place < length self.now) }
        ensures missing { IsNone result → (list_any (same_kind kind) self.now ≡ false) }
    {
        self.set.get_index_of(&kind)
    }
}

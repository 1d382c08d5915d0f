// Groups of centres.
ghost use Rattle.std.specs.Prelude.{◌≡◌, ◌++◌, ◌∷◌, [], false, OnOk};
ghost use Rattle.std.specs.List.{list_any};
ghost use Rattle.cip_stereogroups.specs.Grouping.{kinds_of, with_line};
ghost use Rattle.cip_stereogroups.specs.Names.{same_kind};

use crate::faults::GroupFault;
use crate::kinds::GroupKind;
use crate::names::Names;
use std::alloc::{AllocError, Global};
use std::marker::Model;

/// Atoms, counted from 0. Contracts see the list of them.
#[derive(Drop)]
pub struct Vertices {
    items: Vec<u32>,
}

impl Model for Vertices {
    ghost use Rattle.std.specs.Prelude.{List, ℕ};

    ghost Value = { List ℕ };

    ghost view = { λ vertices. vertices.items.items };
}

impl Vertices {
    /// The atoms of a list, which isn't copied.
    pub fn from_vec(items: Vec<u32>) -> Vertices
        ensures { result ≡ items.items }
    {
        Vertices { items }
    }

    /// The atoms in their order.
    pub fn as_slice(&self) -> &[u32]
        ensures { result.now ≡ self.now }
    {
        &self.items
    }

    /// Adds atoms at the end.
    pub fn extend(&mut self, more: &[u32]) -> Result<(), AllocError>
        ensures { OnOk result (self.new ≡ self.old ++ more.now) }
    {
        self.items.extend_from_slice(more)
    }
}

/// A group: its name, the line, from 1, that names it first, and its atoms in order.
#[derive(Drop)]
pub struct Group {
    pub kind: GroupKind,
    pub line: u32,
    pub atoms: Vertices,
}

/// Groups in the order of their first lines. Contracts see the list of them.
#[derive(Drop)]
pub struct Groups {
    items: Vec<Group>,
}

impl Model for Groups {
    ghost use Rattle.std.specs.Prelude.{List};
    ghost use Rattle.cip_stereogroups.specs.declared.groups.Group.{Group as AnyGroup};

    ghost Value = { List AnyGroup };

    ghost view = { λ groups. groups.items.items };
}

impl Groups {
    /// The groups in their order.
    pub fn as_slice(&self) -> &[Group]
        ensures { result.now ≡ self.now }
    {
        &self.items
    }
}

/// Groups as they are read, with their names. Contracts see the list of groups.
#[derive(Drop)]
pub struct NamedGroups {
    names: Names,
    items: Vec<Group>,
}

impl Model for NamedGroups {
    ghost use Rattle.std.specs.Prelude.{◌≡◌, List};
    ghost use Rattle.cip_stereogroups.specs.declared.groups.Group.{Group as AnyGroup};
    ghost use Rattle.cip_stereogroups.specs.Grouping.{kinds_of};

    ghost Value = { List AnyGroup };

    ghost view = { λ groups. groups.items.items };

    // A group is found by the place of its name.
    ghost invariant = { λ groups. groups.names ≡ kinds_of groups.items.items };
}

impl NamedGroups {
    /// No group. It takes no memory.
    pub fn new(alloc: Global) -> NamedGroups
        ensures { result ≡ [] }
    {
        NamedGroups {
            names: Names::new(alloc),
            items: Vec::new(alloc),
        }
    }

    /// The groups without the table of their names, which is dropped.
    pub fn into_groups(self) -> Groups
        ensures { result ≡ self }
    {
        Groups { items: self.items }
    }

    /// Puts the atoms of a line to the group of its name, which is new where there is none.
    pub fn put_line(
        &mut self,
        kind: GroupKind,
        line: u32,
        atoms: Vec<u32>,
    ) -> Result<(), AllocError>
        ensures { OnOk result (self.new ≡ with_line kind line atoms.items self.old) }
    {
        put_line(&mut self.names, &mut self.items, kind, line, atoms)
    }
}

fn put_line(
    names: &mut Names,
    items: &mut Vec<Group>,
    kind: GroupKind,
    line: u32,
    atoms: Vec<u32>,
) -> Result<(), AllocError>
    requires { names.old ≡ kinds_of items.old.items }
    ensures names { names.new ≡ kinds_of items.new.items }
    ensures items { OnOk result (items.new.items ≡ with_line kind line atoms.items items.old.items) }
{
    match names.place(kind) {
        Some(place) => items[place].atoms.extend(&atoms),
        None => {
            let atoms = Vertices::from_vec(atoms);
            push_group(names, items, Group { kind, line, atoms })
        }
    }
}

// A group is removed again if there is no memory for its name, so that each group has one.
fn push_group(names: &mut Names, items: &mut Vec<Group>, group: Group) -> Result<(), AllocError>
    requires named { names.old ≡ kinds_of items.old.items }
    requires absent { list_any (same_kind group.kind) names.old ≡ false }
    ensures names { names.new ≡ kinds_of items.new.items }
    ensures items { OnOk result (items.new.items ≡ items.old.items ++ group ∷ []) }
{
    let before = items.len();
    let kind = group.kind;
    let Ok(()) = items.push(group) else {
        return Err(AllocError);
    };
    let named = names.push(kind);
    if named.is_err() {
        items.truncate(before);
    }
    named
}

/// The groups of a record, or why it has none.
#[derive(Drop)]
pub enum GroupsAnswer {
    Groups(Groups),
    Refused(GroupFault),
}

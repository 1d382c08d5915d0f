// Collections, line after line.
ghost use Rattle.std.specs.Prelude.{◌≡◌, ◌≤◌, IfOk, Ok, Some, length, map, if◌then◌else◌};
ghost use Rattle.std.specs.Result.{result_map_both};
ghost use Rattle.cip_text.specs.Slices.{texts};
ghost use Rattle.cip_v3000.specs.declared.lines.block_lines.BlockLine.TheVariants.{EndTable};
ghost use Rattle.cip_v3000.specs.Frames.{is_frame};
ghost use Rattle.cip_v3000.specs.Grammar.{words_in};
ghost use Rattle.cip_v3000.specs.Joining.{seen};
ghost use Rattle.cip_v3000.specs.Tables.{seen_table};
ghost use Rattle.cip_stereogroups.specs.Collections.{with_atoms, with_kind, with_words, with_joined, groups_from, groups_of};
ghost use Rattle.cip_stereogroups.specs.Reading.{Gives};

use crate::atoms::atom_index::AtomIndex;
use crate::atoms::atom_lists::{atoms_of, names_of, take_all};
use crate::atoms::atom_set::AtomSet;
use crate::faults::{GroupCause, GroupRefusal, refused};
use crate::groups::{Groups, NamedGroups};
use crate::kinds::{GroupKind, kind_of};
use cip_v3000::{BlockLine, LogicalLine, Table, is_frame, text_of, words};
use std::alloc::{AllocError, Global};

/// What was read of the lines before: whether a collection is open, the atoms that are in a group line, the groups.
#[derive(Drop)]
pub struct GroupBuilder {
    pub inside: bool,
    pub taken: AtomSet,
    pub groups: NamedGroups,
}

impl GroupBuilder {
    // Puts these atoms of a group line to those of its group.
    fn put(&mut self, number: u32, kind: GroupKind, atoms: Vec<u32>) -> Result<(), GroupRefusal>
        ensures { Gives (λ _. self.new) result (with_atoms number self.old kind atoms.items) }
    {
        match take_all(number, &mut self.taken, &atoms) {
            Ok(()) => match self.groups.put_line(kind, number, atoms) {
                Ok(()) => Ok(()),
                Err(AllocError) => Err(GroupRefusal::Memory),
            },
            Err(refusal) => Err(refusal),
        }
    }

    // What is found where the lines are read. The rest goes here, and not in a caller.
    fn ended(self, read: Result<(), GroupRefusal>) -> Result<Groups, GroupRefusal>
        ensures { result ≡ result_map_both (λ _. self.groups) (λ refusal. refusal) read }
    {
        match read {
            Ok(()) => Ok(self.groups.into_groups()),
            Err(refusal) => Err(refusal),
        }
    }
}

/// The groups of a table.
#[tactic(auto, unfolding(crate::specs::Collections::groups_of))]
pub fn groups_of(alloc: Global, table: &Table<'_>) -> Result<Groups, GroupRefusal>
    requires few { length table.now.indices.items ≤ 1000000000 }
    ensures { Gives (λ groups. groups) result (groups_of (seen_table table.now)) }
{
    let Ok(index) = AtomIndex::of(alloc, &table.indices) else {
        return Err(GroupRefusal::Memory);
    };
    let mut found = GroupBuilder {
        inside: false,
        taken: AtomSet::new(alloc),
        groups: NamedGroups::new(alloc),
    };
    let read = read_lines(alloc, &index, table.rest(), &mut found);
    found.ended(read)
}

// Reads lines up to the end of the table.
// proof: the caller keeps what is found, so no line drops it
fn read_lines(
    alloc: Global,
    index: &AtomIndex<'_>,
    lines: &[LogicalLine<'_>],
    found: &mut GroupBuilder,
) -> Result<(), GroupRefusal>
    ensures { Gives (λ _. found.new.groups) result (groups_from index.now found.old (map seen lines.now)) }
{
    for line in lines {
        match read_line(alloc, index, line, found) {
            Ok(true) => {
                // at the end of the table no collection is open
                return if found.inside {
                    Err(refused(line.number, GroupCause::Frame))
                } else {
                    Ok(())
                };
            }
            Ok(false) => (),
            Err(refusal) => return Err(refusal),
        }
    }
    Ok(())
}

// Reads a line after those before it, and says whether the table ends there.
fn read_line(
    alloc: Global,
    index: &AtomIndex<'_>,
    line: &LogicalLine<'_>,
    found: &mut GroupBuilder,
) -> Result<bool, GroupRefusal>
    ensures end { IfOk result (λ end. end ≡ is_frame EndTable (words_in (seen line.now))) }
    ensures found { Gives (λ _. found.new) result (if is_frame EndTable (words_in (seen line.now)) then Ok found.old
        else with_joined index.now line.now.number found.old (words_in (seen line.now))) }
{
    match text_of(alloc, line) {
        Ok(text) => match words(alloc, text.bytes()) {
            Ok(words) => read_joined(alloc, index, line.number, found, &words),
            Err(AllocError) => Err(GroupRefusal::Memory),
        },
        Err(AllocError) => Err(GroupRefusal::Memory),
    }
}

// Reads the words of a line; lines outside collections are passed over.
#[tactic(auto, unfolding(crate::specs::Collections::with_joined))]
fn read_joined(
    alloc: Global,
    index: &AtomIndex<'_>,
    number: u32,
    found: &mut GroupBuilder,
    words: &[&[u8]],
) -> Result<bool, GroupRefusal>
    ensures end { IfOk result (λ end. end ≡ is_frame EndTable (texts words.now)) }
    ensures found { Gives (λ _. found.new) result (if is_frame EndTable (texts words.now) then Ok found.old
        else with_joined index.now number found.old (texts words.now)) }
{
    if is_frame(BlockLine::EndTable, words) {
        Ok(true)
    } else if !found.inside {
        found.inside = is_frame(BlockLine::BeginCollection, words);
        Ok(false)
    } else if is_frame(BlockLine::EndCollection, words) {
        found.inside = false;
        Ok(false)
    } else {
        match read_words(alloc, index, number, found, words) {
            Ok(()) => Ok(false),
            Err(refusal) => Err(refusal),
        }
    }
}

fn read_words(
    alloc: Global,
    index: &AtomIndex<'_>,
    number: u32,
    found: &mut GroupBuilder,
    words: &[&[u8]],
) -> Result<(), GroupRefusal>
    ensures { Gives (λ _. found.new) result (with_words index.now number found.old (texts words.now)) }
{
    match words {
        [] => Ok(()),
        [name, words @ ..] => match kind_of(name) {
            Ok(Some(kind)) => read_kind(alloc, index, number, found, words, kind),
            Ok(None) => Ok(()),
            Err(cause) => Err(refused(number, cause)),
        },
    }
}

// Puts the atoms of a group line to those of its group.
fn read_kind(
    alloc: Global,
    index: &AtomIndex<'_>,
    number: u32,
    found: &mut GroupBuilder,
    words: &[&[u8]],
    kind: GroupKind,
) -> Result<(), GroupRefusal>
    ensures { Gives (λ _. found.new) result (with_kind index.now number found.old (texts words.now) (Some kind)) }
{
    match names_of(alloc, number, words) {
        Ok(names) => {
            let atoms = atoms_of(alloc, number, index, &names);
            // proof: dropped by a call, which is quicker to prove than an exit that owns it
            drop(names);
            match atoms {
                Ok(atoms) => found.put(number, kind, atoms),
                Err(refusal) => Err(refusal),
            }
        }
        Err(refusal) => Err(refusal),
    }
}

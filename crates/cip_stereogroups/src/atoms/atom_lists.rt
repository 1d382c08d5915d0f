// The atoms of a group line.
ghost use Rattle.std.specs.Prelude.{◌≡◌};
ghost use Rattle.std.specs.List.{list_all};
ghost use Rattle.std.specs.Option.{option_map};
ghost use Rattle.cip_text.specs.Slices.{texts};
ghost use Rattle.cip_ctfile.specs.Fields.{parse_number};
ghost use Rattle.cip_stereogroups.specs.AtomLists.{is_numeral, is_count, inner, with_names, with_parts, names_of, atoms_of, all_taken};
ghost use Rattle.cip_stereogroups.specs.Reading.{told_at, Gives};

use crate::atoms::atom_index::AtomIndex;
use crate::atoms::atom_set::AtomSet;
use crate::faults::{GroupCause, GroupRefusal, refused};
use cip_ctfile::{parse_number, split_spaces};
use cip_text::{NumberFault, ends_with_byte, integer};
use std::alloc::{AllocError, Global};

/// The names of the atoms in the words of a group line, after its first one.
pub fn names_of<'a>(
    alloc: Global,
    number: u32,
    words: &[&'a [u8]],
) -> Result<Vec<&'a [u8]>, GroupRefusal>
    ensures { Gives (λ names. texts names.items) result (told_at number (names_of (texts words.now))) }
{
    let mut names = Vec::new(alloc);
    for word in words {
        match push_names(alloc, number, &mut names, word) {
            Ok(()) => (),
            Err(refusal) => return Err(refusal),
        }
    }
    Ok(names)
}

/// The atoms of these names, from 0.
pub fn atoms_of(
    alloc: Global,
    number: u32,
    index: &AtomIndex<'_>,
    names: &[&[u8]],
) -> Result<Vec<u32>, GroupRefusal>
    ensures { Gives (λ atoms. atoms.items) result (told_at number (atoms_of index.now (texts names.now))) }
{
    let mut atoms = Vec::new(alloc);
    for name in names {
        let Some(atom) = index.atom_named(name) else {
            return Err(refused(number, GroupCause::Atom));
        };
        let Ok(()) = atoms.push(atom) else {
            return Err(GroupRefusal::Memory);
        };
    }
    Ok(atoms)
}

/// Puts atoms to those that are in a group line.
pub fn take_all(number: u32, taken: &mut AtomSet, atoms: &[u32]) -> Result<(), GroupRefusal>
    ensures { Gives (λ _. taken.new) result (told_at number (all_taken taken.old atoms.now)) }
{
    for atom in atoms {
        if taken.contains(*atom) {
            return Err(refused(number, GroupCause::Repeated));
        }
        let Ok(()) = taken.push(*atom) else {
            return Err(GroupRefusal::Memory);
        };
    }
    Ok(())
}

// Puts the names of a word after the others.
#[tactic(auto, unfolding(crate::specs::AtomLists::with_names))]
fn push_names<'a>(
    alloc: Global,
    number: u32,
    names: &mut Vec<&'a [u8]>,
    word: &'a [u8],
) -> Result<(), GroupRefusal>
    ensures { Gives (λ _. texts names.new.items) result
        (told_at number (with_names (texts names.old.items) word.now)) }
{
    if word.starts_with(b"ATOMS=") {
        match inner(word) {
            Some(text) => match split_spaces(alloc, text) {
                Ok(parts) => push_parts(number, names, &parts),
                Err(AllocError) => Err(GroupRefusal::Memory),
            },
            None => Err(refused(number, GroupCause::Word)),
        }
    } else {
        Ok(())
    }
}

// Puts the names of a list after the others.
fn push_parts<'a>(
    number: u32,
    names: &mut Vec<&'a [u8]>,
    parts: &[&'a [u8]],
) -> Result<(), GroupRefusal>
    ensures { Gives (λ _. texts names.new.items) result
        (told_at number (with_parts (texts names.old.items) (texts parts.now))) }
{
    match parts {
        // there is a number, and as many numbers after it as it says
        [count, more @ ..] if is_count(more.len(), count) && are_numerals(more) => {
            match names.extend_from_slice(more) {
                Ok(()) => Ok(()),
                Err(AllocError) => Err(GroupRefusal::Memory),
            }
        }
        _ => Err(refused(number, GroupCause::Word)),
    }
}

// What is in the brackets.
fn inner(word: &[u8]) -> Option<&[u8]>
    ensures { option_map (λ text. text.now) result ≡ inner word.now }
{
    if !word.starts_with(b"ATOMS=(") || !ends_with_byte(word, b')') {
        None
    } else if word.len() < 8 {
        Some(&[])
    } else {
        Some(&word[7..word.len() - 1])
    }
}

fn is_count(count: usize, part: &[u8]) -> bool
    ensures { result ≡ is_count count (parse_number 1000000000 part.now) }
{
    match parse_number(1_000_000_000, part) {
        None => false,
        Some(number) => number as usize == count,
    }
}

fn are_numerals(parts: &[&[u8]]) -> bool
    ensures { result ≡ list_all is_numeral (texts parts.now) }
{
    for part in parts {
        if !is_numeral(part) {
            return false;
        }
    }
    true
}

// Whether a part is a number, of any size.
fn is_numeral(part: &[u8]) -> bool
    ensures { result ≡ is_numeral part.now }
{
    match integer(part) {
        Ok(_) | Err(NumberFault::OutOfRange) => true,
        Err(NumberFault::Empty | NumberFault::NotANumber) => false,
    }
}

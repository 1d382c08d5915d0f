// Property lines.
ghost use Rattle.std.specs.Prelude.{◌≡◌, ◌≤◌, [], All, length, IfSome, OnOk};
ghost use Rattle.cip_text.specs.Slices.{texts};
ghost use Rattle.cip_v2000.specs.PropertyLines.{property_of, statement_of, pair_of, pair_at, counted_pairs, pairs_of, pairs_with};
ghost use Rattle.cip_ctfile.specs.Reading.{Gives};
ghost use Rattle.cip_v2000.specs.Statements.{IsStatement, IsPair};

use crate::atom_properties::{AtomProperty, Pair};
use cip_ctfile::{number, one_based_index, signed, split_spaces};
use cip_mol::{ReadFault, ReadRefusal};
use std::alloc::{AllocError, Global};

/// What a property line states.
#[derive(Clone, Copy)]
pub enum Property {
    Charges,
    Radicals,
    Isotopes,
}

/// Reads a property line, and puts its pairs after those before them.
#[tactic(auto, unfolding(crate::specs::PropertyLines::pairs_with))]
pub fn push_properties(
    alloc: Global,
    pairs: &mut Vec<Pair>,
    fault: ReadFault,
    atoms: u32,
    line: &[u8],
) -> Result<(), ReadRefusal>
    requires few { atoms ≤ 999 }
    requires range { All IsPair pairs.old.items }
    ensures range { OnOk result (All IsPair pairs.new.items) }
    ensures value { Gives (λ _. pairs.new.items) result (pairs_with fault atoms pairs.old.items line.now) }
{
    match property_in(line) {
        Some(property) => match split_spaces(alloc, &line[6..]) {
            Ok(words) => push_counted(pairs, fault, property, atoms, words.as_slice()),
            Err(AllocError) => Err(ReadRefusal::Memory),
        },
        None => Ok(()),
    }
}

// The same of the words after what the line states.
// proof: the caller keeps the words and drops them once
fn push_counted(
    pairs: &mut Vec<Pair>,
    fault: ReadFault,
    property: Property,
    atoms: u32,
    words: &[&[u8]],
) -> Result<(), ReadRefusal>
    requires few { atoms ≤ 999 }
    requires range { All IsPair pairs.old.items }
    ensures range { OnOk result (All IsPair pairs.new.items) }
    ensures value { Gives (λ _. pairs.new.items) result
        (counted_pairs fault property atoms pairs.old.items (texts words.now)) }
{
    match words {
        [count, words @ ..] => match one_based_index(8, count) {
            Some(last) => push_pairs(pairs, fault, property, atoms, last + 1, words),
            None => Err(ReadRefusal::Fault(fault)),
        },
        [] => Err(ReadRefusal::Fault(fault)),
    }
}

#[tactic(auto, using(crate::proofs::lemmas::QuietFields::no_property))]
fn property_in(line: &[u8]) -> Option<Property>
    ensures value { result ≡ property_of line.now }
    ensures long { IfSome result (λ _. 6 ≤ length line.now) }
{
    if line.len() < 6 || line[0] != b'M' {
        None
    } else {
        let columns = &line[..6];
        if columns == b"M  CHG".as_slice() {
            Some(Property::Charges)
        } else if columns == b"M  RAD".as_slice() {
            Some(Property::Radicals)
        } else if columns == b"M  ISO".as_slice() {
            Some(Property::Isotopes)
        } else {
            None
        }
    }
}

// Reads n pairs, and puts them after those before them.
fn push_pairs(
    pairs: &mut Vec<Pair>,
    fault: ReadFault,
    property: Property,
    atoms: u32,
    count: u32,
    words: &[&[u8]],
) -> Result<(), ReadRefusal>
    requires few { atoms ≤ 999 }
    requires count { count ≤ 8 }
    requires range { All IsPair pairs.old.items }
    ensures range { OnOk result (All IsPair pairs.new.items) }
    ensures value { Gives (λ _. pairs.new.items) result
        (pairs_of fault property atoms pairs.old.items count (texts words.now)) }
{
    for row in 0..count as usize {
        let Some(pair) = pair_at(property, atoms, words, 2 * row) else {
            return Err(ReadRefusal::Fault(fault));
        };
        let Ok(()) = pairs.push(pair) else {
            return Err(ReadRefusal::Memory);
        };
    }
    Ok(())
}

// The pair of two words, from this place on.
#[tactic(auto, unfolding(crate::specs::PropertyLines::pair_at))]
fn pair_at(property: Property, atoms: u32, words: &[&[u8]], place: usize) -> Option<Pair>
    requires few { atoms ≤ 999 }
    requires place { place ≤ 1000 }
    ensures value { result ≡ pair_at property atoms (texts words.now) place }
    ensures range { IfSome result IsPair }
{
    match words.get(place) {
        Some(atom) => match words.get(place + 1) {
            Some(value) => pair_in(property, atoms, atom, value),
            None => None,
        },
        None => None,
    }
}

#[tactic(auto, unfolding(crate::specs::PropertyLines::pair_of))]
fn pair_in(property: Property, atoms: u32, atom: &[u8], value: &[u8]) -> Option<Pair>
    requires { atoms ≤ 999 }
    ensures value { result ≡ pair_of property atoms atom.now value.now }
    ensures range { IfSome result IsPair }
{
    match (one_based_index(atoms, atom), statement_in(property, value)) {
        (Some(atom), Some(states)) => Some(Pair { atom, states }),
        _ => None,
    }
}

fn statement_in(property: Property, word: &[u8]) -> Option<AtomProperty>
    ensures value { result ≡ statement_of property word.now }
    ensures range { IfSome result IsStatement }
{
    match property {
        Property::Charges => match signed(15, 15, word) {
            Some(charge) => Some(AtomProperty::Charge(charge)),
            None => None,
        },
        Property::Radicals => match number(3, word) {
            Some(radical) => Some(AtomProperty::Radical(radical as u8)),
            None => None,
        },
        Property::Isotopes => match number(400, word) {
            Some(isotope) => Some(AtomProperty::Isotope(isotope as u16)),
            None => None,
        },
    }
}

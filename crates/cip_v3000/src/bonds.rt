// Bond lines.
ghost use Rattle.std.specs.Prelude.{◌≡◌, ◌≤◌, ◌<◌, false, length, nat_lt, IfOk, IfSome, IsNone};
ghost use Rattle.cip_mol.specs.Ranges.{IsBond};
ghost use Rattle.cip_mol.specs.declared.graph.molecule.Mark.TheVariants.{Plain};
ghost use Rattle.cip_ctfile.specs.Fields.{parse_number};
ghost use Rattle.cip_v3000.specs.BondLine.{mark_of, with_mark, place_of, bond_by, bond_of, IsBondLine, IsMark};
ghost use Rattle.cip_v3000.specs.LineWords.{AreBondWords};
ghost use Rattle.cip_v3000.specs.Words.{words_of};
ghost use Rattle.cip_ctfile.specs.Turns.{over};

use crate::atom_indices::{AtomIndices, GREATEST, new_index};
use crate::lines::word_splitter::{key_and_value, next_word};
use crate::values::numbers::next_number;
use cip_ctfile::{check_bond, order, parse_number};
use cip_mol::{Bond, BondList, Mark, ReadCause};

/// A bond and its index.
#[derive(Clone, Copy)]
pub struct BondLine {
    pub index: u32,
    pub bond: Bond,
}

// The numbers of the four words that a bond line has at least, none where a word is no such number, and the text after
// them.
#[derive(Clone, Copy)]
struct BondWords<'a> {
    index: Option<u32>,
    order: Option<u32>,
    a: Option<u32>,
    b: Option<u32>,
    keys: &'a [u8],
}

/// What the words of a bond line say, among atoms of these indices and after these bonds.
#[tactic(auto, unfolding(crate::specs::BondLine::bond_of, crate::specs::AtomLine::new_index))]
pub fn bond_in(
    atoms: &AtomIndices,
    known: &AtomIndices,
    before: &BondList,
    text: &[u8],
) -> Result<BondLine, ReadCause>
    requires few { length atoms.now ≤ 1000000000 }
    requires among { before.now.atoms ≡ length atoms.now }
    ensures value { result ≡ bond_of atoms.now known.now before.now.bonds (words_of text.now) }
    ensures range { IfOk result (IsBondLine known.now before.now) }
{
    match bond_words(text) {
        Some(words) => match new_index(known, words.index) {
            Ok(index) => match bond_by(atoms, &words) {
                Ok(drawn) => match check_bond(before, drawn) {
                    Ok(bond) => Ok(BondLine { index, bond }),
                    Err(cause) => Err(cause),
                },
                Err(cause) => Err(cause),
            },
            Err(cause) => Err(cause),
        },
        None => Err(ReadCause::Frame),
    }
}

fn bond_words(text: &[u8]) -> Option<BondWords<'_>>
    ensures some { IfSome result (AreBondWords (words_of text.now)) }
    ensures none { IsNone result → nat_lt 3 (length (words_of text.now)) ≡ false }
{
    if let Some((index, rest)) = next_number(GREATEST, text)
        && let Some((order, rest)) = next_number(3, rest)
        && let Some((a, rest)) = next_number(GREATEST, rest)
        && let Some((b, keys)) = next_number(GREATEST, rest)
    {
        Some(BondWords {
            index,
            order,
            a,
            b,
            keys,
        })
    } else {
        None
    }
}

// The bond that the words draw.
#[tactic(auto, unfolding(crate::specs::BondLine::bond_by))]
fn bond_by(atoms: &AtomIndices, words: &BondWords<'_>) -> Result<Bond, ReadCause>
    requires atoms { length atoms.now ≤ 1000000000 }
    requires order { IfSome words.now.order (λ order. order ≤ 3) }
    ensures value { result ≡ bond_by atoms.now words.now.order words.now.a words.now.b (words_of words.now.keys.now) }
    ensures range { IfOk result IsBond }
{
    match order(words.order) {
        Some(order) => match (place_of(atoms, words.a), place_of(atoms, words.b)) {
            (Some(a), Some(b)) => match mark_in(order, words.keys) {
                Ok(mark) => Ok(Bond { a, b, order, mark }),
                Err(cause) => Err(cause),
            },
            _ => Err(ReadCause::BondEnd),
        },
        None => Err(ReadCause::BondType),
    }
}

// The place, from 0, of the atom of an index.
fn place_of(indices: &AtomIndices, index: Option<u32>) -> Option<u32>
    requires { length indices.now ≤ 1000000000 }
    ensures value { result ≡ place_of indices.now index }
    ensures within { IfSome result (λ place. place < length indices.now) }
{
    match index {
        Some(index) => match indices.place(index) {
            Some(place) => Some(place as u32),
            None => None,
        },
        None => None,
    }
}

// The mark that the keys of a bond state, which are the words of a text.
fn mark_in(order: u8, text: &[u8]) -> Result<Mark, ReadCause>
    ensures value { result ≡ over (with_mark order) Plain (words_of text.now) }
    ensures range { IfOk result (IsMark order) }
{
    let mut mark = Mark::Plain;
    let mut rest = text;
    while let Some((word, behind)) = next_word(rest) {
        match with_mark(order, mark, word) {
            Ok(next) => mark = next,
            Err(cause) => return Err(cause),
        }
        rest = behind;
    }
    Ok(mark)
}

#[tactic(auto, unfolding(crate::specs::BondLine::with_mark))]
fn with_mark(order: u8, mark: Mark, word: &[u8]) -> Result<Mark, ReadCause>
    requires { IsMark order mark }
    ensures value { result ≡ with_mark order mark word.now }
    ensures range { IfOk result (IsMark order) }
{
    match key_and_value(word) {
        Some((key, value)) => {
            if key == b"CFG".as_slice() {
                match mark_of(order, parse_number(3, value)) {
                    Some(mark) => Ok(mark),
                    None => Err(ReadCause::BondMark),
                }
            } else {
                Ok(mark)
            }
        }
        None => Err(ReadCause::KeyValue),
    }
}

fn mark_of(order: u8, code: Option<u32>) -> Option<Mark>
    ensures value { result ≡ mark_of order code }
    ensures range { IfSome result (IsMark order) }
{
    match (order, code) {
        (_, Some(0)) => Some(Mark::Plain),
        (1, Some(1)) => Some(Mark::Up),
        (1 | 2, Some(2)) => Some(Mark::Either),
        (1, Some(3)) => Some(Mark::Down),
        _ => None,
    }
}

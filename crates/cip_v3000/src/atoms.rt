// Atom lines.
ghost use Rattle.std.specs.Prelude.{◌≡◌, false, length, nat_lt, IfOk, IfSome, IsNone};
ghost use Rattle.cip_mol.specs.Ranges.{IsAtom, IsPlace};
ghost use Rattle.cip_text.specs.Numbers.{integer_of};
ghost use Rattle.cip_v3000.specs.AtomLine.{is_number, atom_by, atom_of, IsAtomLine};
ghost use Rattle.cip_v3000.specs.LineWords.{AreAtomWords};
ghost use Rattle.cip_v3000.specs.Words.{words_of};

use crate::atom_indices::{AtomIndices, GREATEST, new_index};
use crate::lines::word_splitter::next_word;
use crate::values::keys::{AtomKeys, atom_keys};
use crate::values::numbers::{next_number, next_point};
use cip_elem::number_of;
use cip_mol::{Atom, ReadCause};
use cip_num::Vec3;
use cip_text::{NumberFault, integer};

/// An atom without any key.
const NO_KEYS: AtomKeys = AtomKeys {
    charge: 0,
    radical: 0,
    mass: 0,
    valence_mark: 0,
};

/// An atom and its index.
#[derive(Clone, Copy)]
pub struct AtomLine {
    pub index: u32,
    pub atom: Atom,
}

// What the six words say that an atom line has at least, and the text after them.
#[derive(Clone, Copy)]
struct AtomWords<'a> {
    index: Option<u32>,
    symbol: &'a [u8],
    at: Result<Vec3, ReadCause>,
    mapping: &'a [u8],
    keys: &'a [u8],
}

/// What the words of an atom line say, after lines of these indices.
#[tactic(auto, unfolding(crate::specs::AtomLine::atom_of, crate::specs::AtomLine::new_index))]
pub fn atom_in(known: &AtomIndices, text: &[u8]) -> Result<AtomLine, ReadCause>
    ensures value { result ≡ atom_of known.now (words_of text.now) }
    ensures range { IfOk result (IsAtomLine known.now) }
{
    match atom_words(text) {
        Some(words) => match new_index(known, words.index) {
            Ok(index) => match atom_by(&words) {
                Ok(atom) => Ok(AtomLine { index, atom }),
                Err(cause) => Err(cause),
            },
            Err(cause) => Err(cause),
        },
        None => Err(ReadCause::Frame),
    }
}

fn atom_words(text: &[u8]) -> Option<AtomWords<'_>>
    ensures some { IfSome result (AreAtomWords (words_of text.now)) }
    ensures none { IsNone result → nat_lt 5 (length (words_of text.now)) ≡ false }
{
    if let Some((index, rest)) = next_number(GREATEST, text)
        && let Some((symbol, rest)) = next_word(rest)
        && let Some((at, rest)) = next_point(rest)
        && let Some((mapping, keys)) = next_word(rest)
    {
        Some(AtomWords {
            index,
            symbol,
            at,
            mapping,
            keys,
        })
    } else {
        None
    }
}

// The atom that the words draw.
#[tactic(auto, unfolding(crate::specs::AtomLine::atom_by))]
fn atom_by(words: &AtomWords<'_>) -> Result<Atom, ReadCause>
    requires { IfOk words.now.at IsPlace }
    ensures value { result ≡ atom_by words.now.symbol.now words.now.at words.now.mapping.now
        (words_of words.now.keys.now) }
    ensures range { IfOk result IsAtom }
{
    match number_of(words.symbol) {
        Some(element) => match words.at {
            Ok(at) => {
                if is_number(words.mapping) {
                    match atom_keys(NO_KEYS, words.keys) {
                        Ok(keys) => Ok(Atom {
                            z: element.z,
                            isotope: if keys.mass == 0 {
                                element.isotope
                            } else {
                                keys.mass
                            },
                            charge: keys.charge,
                            radical: keys.radical,
                            valence_mark: keys.valence_mark,
                            at,
                        }),
                        Err(cause) => Err(cause),
                    }
                } else {
                    Err(ReadCause::KeyValue)
                }
            }
            Err(cause) => Err(cause),
        },
        None => Err(ReadCause::Symbol),
    }
}

// Whether a word is a number of any size.
fn is_number(word: &[u8]) -> bool
    ensures { result ≡ is_number (integer_of word.now) }
{
    match integer(word) {
        Ok(_) | Err(NumberFault::OutOfRange) => true,
        Err(NumberFault::Empty | NumberFault::NotANumber) => false,
    }
}

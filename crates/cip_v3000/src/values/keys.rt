// The keys of an atom line.
ghost use Rattle.std.specs.Prelude.{◌≡◌, ◌≤◌, unsigned_abs, IfOk};
ghost use Rattle.cip_v3000.specs.Keys.{valence_of, with_value, with_key, keys_from, AreKeys};
ghost use Rattle.cip_v3000.specs.Words.{words_of};

use crate::lines::word_splitter::{key_and_value, next_word};
use cip_ctfile::{parse_number, parse_signed};
use cip_mol::ReadCause;

/// What the keys of an atom say, as `Atom` has it.
#[derive(Clone, Copy)]
pub struct AtomKeys {
    pub charge: i8,
    pub radical: u8,
    /// The mass number; 0 where none is stated.
    pub mass: u16,
    pub valence_mark: u8,
}

/// The keys of the words of a text, in turn.
pub fn atom_keys(start: AtomKeys, text: &[u8]) -> Result<AtomKeys, ReadCause>
    requires { AreKeys start }
    ensures value { result ≡ keys_from start (words_of text.now) }
    ensures range { IfOk result AreKeys }
{
    let mut keys = start;
    let mut rest = text;
    while let Some((word, behind)) = next_word(rest) {
        match with_key(keys, word) {
            Ok(next) => keys = next,
            Err(cause) => return Err(cause),
        }
        rest = behind;
    }
    Ok(keys)
}

#[tactic(auto, unfolding(crate::specs::Keys::with_key))]
fn with_key(keys: AtomKeys, word: &[u8]) -> Result<AtomKeys, ReadCause>
    requires { AreKeys keys }
    ensures value { result ≡ with_key keys word.now }
    ensures range { IfOk result AreKeys }
{
    match key_and_value(word) {
        Some((key, value)) => with_value(keys, key, value),
        None => Err(ReadCause::KeyValue),
    }
}

// The keys with the value of one; a key that isn't read changes nothing.
fn with_value(keys: AtomKeys, key: &[u8], value: &[u8]) -> Result<AtomKeys, ReadCause>
    requires { AreKeys keys }
    ensures value { result ≡ with_value keys (key.now, value.now) }
    ensures range { IfOk result AreKeys }
{
    let mut keys = keys;
    if key == b"CHG".as_slice() {
        let Some(charge) = parse_signed(15, 15, value) else {
            return Err(ReadCause::KeyValue);
        };
        keys.charge = charge;
    } else if key == b"RAD".as_slice() {
        let Some(radical) = parse_number(3, value) else {
            return Err(ReadCause::KeyValue);
        };
        keys.radical = radical as u8;
    } else if key == b"MASS".as_slice() {
        let Some(mass) = parse_number(400, value) else {
            return Err(ReadCause::KeyValue);
        };
        keys.mass = mass as u16;
    } else if key == b"VAL".as_slice() {
        let Some(stated) = parse_signed(1, 14, value) else {
            return Err(ReadCause::KeyValue);
        };
        keys.valence_mark = valence(stated);
    }
    Ok(keys)
}

fn valence(value: i8) -> u8
    requires { unsigned_abs value ≤ 14 }
    ensures value { result ≡ valence_of value }
    ensures range { result ≤ 15 }
{
    if value < 0 { 15 } else { value.unsigned_abs() }
}

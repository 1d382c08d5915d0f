// The numbers in the fields and words of a line.
ghost use Rattle.std.specs.Prelude.{◌≡◌, ◌≤◌, ◌<◌, unsigned_abs, max, IfSome, Some};
ghost use Rattle.cip_text.specs.Numbers.{integer_of};
ghost use Rattle.cip_ctfile.specs.Fields.{or_zero, stated, up_to, between, number_in, signed_in, parse_number, parse_signed, one_based_index};

use crate::fast_path::few_digits;
use cip_text::{NumberFault, integer};

/// The number of a field, from 0 to a most; 0 where the field is empty.
#[tactic(auto, unfolding(crate::specs::Fields::number_in))]
pub fn number(most: u32, field: &[u8]) -> Option<u32>
    requires { most ≤ 1000000000 }
    ensures value { result ≡ number_in most field.now }
    ensures range { IfSome result (λ number. number ≤ most) }
{
    up_to(most, or_zero(field))
}

/// The number of a field, from `-low` to `high`; 0 where the field is empty.
#[tactic(auto, unfolding(crate::specs::Fields::signed_in))]
pub fn signed(low: u8, high: u8, field: &[u8]) -> Option<i8>
    requires low { low ≤ 100 }
    requires high { high ≤ 100 }
    ensures value { result ≡ signed_in low high field.now }
    ensures range { IfSome result (λ number. unsigned_abs number ≤ max low high) }
{
    between(low, high, or_zero(field))
}

/// The number of a word, from 0 to a most.
#[tactic(auto, using(crate::proofs::lemmas::UsualNumbers::digits_read), unfolding(crate::specs::Fields::parse_number))]
pub fn parse_number(most: u32, word: &[u8]) -> Option<u32>
    requires { most ≤ 1000000000 }
    ensures value { result ≡ parse_number most word.now }
    ensures range { IfSome result (λ number. number ≤ most) }
{
    match few_digits(word) {
        Some(number) if number <= most => Some(number),
        Some(_) => None,
        None => up_to(most, stated(word)),
    }
}

/// The number of a word, from `-low` to `high`.
#[tactic(auto, unfolding(crate::specs::Fields::parse_signed))]
pub fn parse_signed(low: u8, high: u8, word: &[u8]) -> Option<i8>
    requires low { low ≤ 100 }
    requires high { high ≤ 100 }
    ensures value { result ≡ parse_signed low high word.now }
    ensures range { IfSome result (λ number. unsigned_abs number ≤ max low high) }
{
    between(low, high, stated(word))
}

/// The place, from 0, of what a field names by a number from 1 to a most.
pub fn one_based_index(most: u32, field: &[u8]) -> Option<u32>
    requires { most ≤ 1000000000 }
    ensures value { result ≡ one_based_index (number_in most field.now) }
    ensures range { IfSome result (λ place. place < most) }
{
    match number(most, field) {
        Some(number) => place_of(number),
        None => None,
    }
}

/// The place, from 0, of what a number names from 1.
pub fn place_of(number: u32) -> Option<u32>
    ensures value { result ≡ one_based_index (Some number) }
    ensures range { IfSome result (λ place. place < number) }
{
    if number == 0 { None } else { Some(number - 1) }
}

fn up_to(most: u32, number: Option<i64>) -> Option<u32>
    requires { most ≤ 1000000000 }
    ensures value { result ≡ up_to most number }
    ensures range { IfSome result (λ found. found ≤ most) }
{
    match number {
        Some(number) if number >= 0 && number <= i64::from(most) => Some(number as u32),
        _ => None,
    }
}

fn between(low: u8, high: u8, number: Option<i64>) -> Option<i8>
    requires low { low ≤ 100 }
    requires high { high ≤ 100 }
    ensures value { result ≡ between low high number }
    ensures range { IfSome result (λ found. unsigned_abs found ≤ max low high) }
{
    match number {
        Some(number) if number >= -i64::from(low) && number <= i64::from(high) => {
            Some(number as i8)
        }
        _ => None,
    }
}

fn or_zero(field: &[u8]) -> Option<i64>
    ensures { result ≡ or_zero (integer_of field.now) }
{
    match integer(field) {
        Ok(number) => Some(number),
        Err(NumberFault::Empty) => Some(0),
        Err(NumberFault::NotANumber) => None,
        Err(NumberFault::OutOfRange) => None,
    }
}

fn stated(word: &[u8]) -> Option<i64>
    ensures { result ≡ stated (integer_of word.now) }
{
    match integer(word) {
        Ok(number) => Some(number),
        Err(_) => None,
    }
}

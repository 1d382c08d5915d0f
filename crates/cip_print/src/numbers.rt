// Numbers and words at the end of a text.
ghost use Rattle.std.specs.Prelude.{◌≡◌, ◌++◌, ◌∷◌, [], ◌+◌, ◌<◌, OnOk, codes, decimal};

use std::alloc::AllocError;

/// Adds the digits of a number.
#[tactic(auto, using(crate::proofs::lemmas::LastDigits::one_digit, crate::proofs::lemmas::LastDigits::one_digit_more))]
pub fn push_number(text: &mut Vec<u8>, number: u64) -> Result<(), AllocError>
    ensures { OnOk result (text.new.items ≡ text.old.items ++ decimal number) }
{
    if number < 10 {
        push_digit(text, number)
    } else {
        match push_number(text, number / 10) {
            Ok(()) => push_digit(text, number % 10),
            Err(error) => Err(error),
        }
    }
}

fn push_digit(text: &mut Vec<u8>, digit: u64) -> Result<(), AllocError>
    requires { digit < 10 }
    ensures { OnOk result (text.new.items ≡ text.old.items ++ (48 + digit) ∷ []) }
{
    match text.push(b'0' + digit as u8) {
        Ok(()) => Ok(()),
        Err(_) => Err(AllocError),
    }
}

/// Adds a space and a word.
#[tactic(auto, using(crate::proofs::lemmas::Texts::moved))]
pub fn push_word(text: &mut Vec<u8>, word: &str) -> Result<(), AllocError>
    ensures { OnOk result (text.new.items ≡ text.old.items ++ (codes " " ++ word.now)) }
{
    match text.push(b' ') {
        Ok(()) => text.extend_from_slice(word.as_bytes()),
        Err(_) => Err(AllocError),
    }
}

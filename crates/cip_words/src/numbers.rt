// Numbers as words.
ghost use Rattle.std.specs.Prelude.{◌≡◌, min};
ghost use Rattle.std.specs.Option.{option_map};
ghost use Rattle.cip_words.specs.Numbers.{lead_of, number_of};

use cip_text::{CAP, parse_digits};

/// The number that a word spells, counted to the cap.
pub fn number(word: &[u8]) -> Option<u64>
    ensures { result ≡ option_map (min CAP) (number_of word.now) }
{
    // no 0 leads it, but where it is alone
    if word.len() == 1 || lead_of(word) > b'0' {
        parse_digits(word)
    } else {
        None
    }
}

// The first digit, 0 where there is none.
fn lead_of(word: &[u8]) -> u8
    ensures { result ≡ lead_of word.now }
{
    match word.first() {
        Some(byte) => *byte,
        None => b'0',
    }
}

// What an option is set to by the words after a command.
ghost use Rattle.std.specs.Prelude.{◌≡◌, IfSome, map, true};
ghost use Rattle.std.specs.Option.{option_map};
ghost use Rattle.cip_words.specs.Choices.{allows, first_given, is_given, is_name, are_name_value_pairs, allowed, once, value_of};
ghost use Rattle.cip_words.specs.Ranges.{IsOf};

use crate::command_table::{NamedOption, Values};
use crate::numbers::number;

/// Whether the words are names of these options, each with a word for its value after it.
pub fn are_name_value_pairs(choices: &[NamedOption], words: &[String]) -> bool
    ensures { result ≡ are_name_value_pairs (map (λ choice. (choice.0.now, choice.1)) choices.now) words.now }
{
    let mut rest = words;
    while let [word, _, more @ ..] = rest {
        if !is_name(choices, word.as_bytes()) {
            return false;
        }
        rest = more;
    }
    rest.is_empty()
}

fn is_name(choices: &[NamedOption], word: &[u8]) -> bool
    ensures { result ≡ is_name (map (λ choice. (choice.0.now, choice.1)) choices.now) word.now }
{
    for choice in choices {
        if word == choice.0 {
            return true;
        }
    }
    false
}

/// What an option is set to by names and values in turn: by its default where it isn't given, by its value where it is
/// given once.
pub fn value_of(choice: &NamedOption, words: &[String]) -> Option<u32>
    requires { IfSome choice.now.1.default (IsOf choice.now.1.values) }
    ensures set { result ≡ value_of choice.now.0.now choice.now.1 words.now }
    ensures of { IfSome result (IsOf choice.now.1.values) }
{
    if is_given(choice.0, words) {
        match single_value(choice.0, words) {
            Some(word) => allowed(choice.1.values, word),
            None => None,
        }
    } else {
        choice.1.default
    }
}

/// The word after a name that is given once.
pub fn single_value<'a>(name: &[u8], words: &'a [String]) -> Option<&'a [u8]>
    ensures { option_map (λ value. value.now) result ≡ once name.now words.now }
{
    match first_given(name, words) {
        Some((value, more)) if !is_given(name, more) => Some(value),
        _ => None,
    }
}

fn is_given(name: &[u8], words: &[String]) -> bool
    ensures { result ≡ is_given name.now words.now }
{
    first_given(name, words).is_some()
}

// The word after a name where it is first, and the words after that.
fn first_given<'a>(name: &[u8], words: &'a [String]) -> Option<(&'a [u8], &'a [String])>
    ensures { option_map (λ given. (given.0.now, given.1.now)) result ≡ first_given name.now words.now }
{
    let mut rest = words;
    while let [word, value, more @ ..] = rest {
        if word.as_bytes() == name {
            return Some((value.as_bytes(), more));
        }
        rest = more;
    }
    None
}

// The number of a word, where it is one of these.
fn allowed(values: Values, word: &[u8]) -> Option<u32>
    ensures set { result ≡ allowed values word.now }
    ensures of { IfSome result (IsOf values) }
{
    match number(word) {
        Some(number) if allows(values, number) => Some(number as u32),
        _ => None,
    }
}

fn allows(values: Values, number: u64) -> bool
    ensures tested { result ≡ allows values number }
    ensures of { result ≡ true → IsOf values number }
{
    match values {
        Values::Between { least, most } => u64::from(least) <= number && number <= u64::from(most),
        Values::Either { one, other } => number == u64::from(one) || number == u64::from(other),
        Values::CentreLetter => false,
    }
}

// The words of a joined line.
ghost use Rattle.std.specs.Prelude.{◌≡◌, ◌≤◌, ◌<◌, ◌++◌, ◌∷◌, [], drop, length, slice_index, take, IfOk, IfSome, IsNone};
ghost use Rattle.std.specs.Option.{option_map};
ghost use Rattle.cip_text.specs.Slices.{texts};
ghost use Rattle.cip_v3000.specs.Words.{after, ended, words_from, words_of, keyed};
ghost use Rattle.cip_v3000.specs.declared.lines.word_splitter.QuoteState.TheVariants.{Plain};

use bstr::ByteSlice;
use cip_ctfile::trim_start_spaces;
use std::alloc::{AllocError, Global};

/// How many words a line has at most, but for few.
const USUAL_WORDS: usize = 8;

/// What a byte is in.
#[derive(Clone, Copy)]
pub enum QuoteState {
    Plain,
    Bracket,
    Quote,
}

#[tactic(auto, using(crate::proofs::lemmas::FirstWords::state_stays))]
fn state_behind(within: QuoteState, byte: u8) -> QuoteState
    ensures { result ≡ after within byte }
{
    // Most bytes are after all of those that begin or end a part.
    if byte > b')' {
        return within;
    }
    match (within, byte) {
        (QuoteState::Plain, b'(') => QuoteState::Bracket,
        (QuoteState::Plain, b'"') => QuoteState::Quote,
        (QuoteState::Bracket, b')') | (QuoteState::Quote, b'"') => QuoteState::Plain,
        _ => within,
    }
}

/// The words of a text. A part in round brackets or between double quotes belongs to its word.
pub fn words(alloc: Global, text: &[u8]) -> Result<Vec<&[u8]>, AllocError>
    ensures { IfOk result (λ v. texts v.items ≡ words_of text.now) }
{
    let Ok(mut words) = Vec::with_capacity(alloc, USUAL_WORDS) else {
        return Err(AllocError);
    };
    let mut rest = text;
    while let Some((word, behind)) = next_word(rest) {
        let Ok(()) = words.push(word) else {
            return Err(AllocError);
        };
        rest = behind;
    }
    Ok(words)
}

/// The two sides of a word KEY=value.
#[tactic(auto, using(cip_text::proofs::lemmas::Positions::first_position), unfolding(crate::specs::Words::keyed))]
pub fn key_and_value(word: &[u8]) -> Option<(&[u8], &[u8])>
    ensures { option_map (λ p. (p.0.now, p.1.now)) result ≡ keyed word.now }
{
    match word.find_byte(b'=') {
        None => None,
        Some(place) => Some((&word[..place], &word[place + 1..])),
    }
}

/// The first word of a text, and what comes after it.
pub fn next_word(text: &[u8]) -> Option<(&[u8], &[u8])>
    ensures some { IfSome result (λ p. words_of text.now ≡ p.0.now ∷ words_of p.1.now) }
    ensures shorter { IfSome result (λ p. length p.1.now < length text.now) }
    ensures none { IsNone result → words_of text.now ≡ [] }
{
    let begun = trim_start_spaces(text);
    if begun.is_empty() {
        None
    } else {
        let end = word_end(begun);
        Some((&begun[..end], &begun[end..]))
    }
}

// The place after the word that begins a text.
#[tactic(auto, using(crate::proofs::lemmas::FirstWords::begun_goes_on, crate::proofs::lemmas::FirstWords::begun_ends, crate::proofs::lemmas::FirstWords::begun_runs_out, crate::proofs::lemmas::FirstWords::cut_is_space), unfolding(crate::specs::Words::words_of))]
fn word_end(text: &[u8]) -> usize
    ensures cut { words_of text.now ≡ ended (take result text.now) ++ words_of (drop result text.now) }
    ensures within { result ≤ length text.now }
    ensures space { result < length text.now → slice_index text.now result ≡ 32 }
{
    let mut within = QuoteState::Plain;
    let mut at = plain_bytes(text);
    while at < text.len() {
        match (within, text[at]) {
            (QuoteState::Plain, b' ') => return at,
            (_, byte) => within = state_behind(within, byte),
        }
        at += 1;
    }
    text.len()
}

// How many bytes are before the first that may end a word, or begin a part: most words have no other bytes.
#[tactic(auto, using(crate::proofs::lemmas::FirstWords::plain_goes_on), unfolding(crate::specs::Words::words_of))]
fn plain_bytes(text: &[u8]) -> usize
    ensures within { result ≤ length text.now }
    ensures plain { words_from Plain (take result text.now) (drop result text.now) ≡ words_of text.now }
{
    let mut at = 0;
    while at < text.len() && text[at] > b')' {
        at += 1;
    }
    at
}

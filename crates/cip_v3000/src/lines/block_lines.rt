// The lines that frame the parts of a molfile.
ghost use Rattle.std.specs.Prelude.{◌≡◌};
ghost use Rattle.cip_text.specs.Slices.{texts};
ghost use Rattle.cip_v3000.specs.Frames.{are_two, begin_with, is_frame};
ghost use Rattle.cip_v3000.specs.Words.{words_of};

use crate::lines::word_splitter::next_word;

/// A line that begins or ends a part.
#[derive(Clone, Copy)]
pub enum BlockLine {
    BeginTable,
    BeginAtoms,
    EndAtoms,
    BeginBonds,
    EndBonds,
    BeginCollection,
    EndCollection,
    EndTable,
}

/// Whether these are the words of the line.
#[tactic(auto, unfolding(crate::specs::Frames::is_frame))]
pub fn is_frame(line: BlockLine, words: &[&[u8]]) -> bool
    ensures { result ≡ is_frame line (texts words.now) }
{
    match line {
        BlockLine::BeginTable => begin_with(b"BEGIN", b"CTAB", words),
        BlockLine::BeginAtoms => are_two(b"BEGIN", b"ATOM", words),
        BlockLine::EndAtoms => are_two(b"END", b"ATOM", words),
        BlockLine::BeginBonds => are_two(b"BEGIN", b"BOND", words),
        BlockLine::EndBonds => are_two(b"END", b"BOND", words),
        BlockLine::BeginCollection => are_two(b"BEGIN", b"COLLECTION", words),
        BlockLine::EndCollection => are_two(b"END", b"COLLECTION", words),
        BlockLine::EndTable => are_two(b"END", b"CTAB", words),
    }
}

/// Whether the words of a text are those of the line. Words after the third change nothing.
#[tactic(auto, using(crate::proofs::lemmas::FrameWords::further_words))]
pub fn is_frame_text(line: BlockLine, text: &[u8]) -> bool
    ensures { result ≡ is_frame line (words_of text.now) }
{
    let Some((first, rest)) = next_word(text) else {
        return false;
    };
    let Some((second, rest)) = next_word(rest) else {
        return false;
    };
    match next_word(rest) {
        None => is_frame(line, &[first, second]),
        Some((third, _)) => is_frame(line, &[first, second, third]),
    }
}

fn are_two(first: &[u8], second: &[u8], words: &[&[u8]]) -> bool
    ensures { result ≡ are_two first.now second.now (texts words.now) }
{
    match words {
        [a, b] => *a == first && *b == second,
        _ => false,
    }
}

fn begin_with(first: &[u8], second: &[u8], words: &[&[u8]]) -> bool
    ensures { result ≡ begin_with first.now second.now (texts words.now) }
{
    match words {
        [a, b, ..] => *a == first && *b == second,
        _ => false,
    }
}

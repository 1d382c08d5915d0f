// The counts line.
ghost use Rattle.std.specs.Prelude.{◌≡◌, IfOk};
ghost use Rattle.cip_v3000.specs.CountsLine.{counts_of, AreCounts};
ghost use Rattle.cip_v3000.specs.Words.{words_of};

use crate::lines::word_splitter::next_word;
use crate::values::numbers::next_number;
use cip_mol::ReadCause;

/// How many atoms and bonds follow.
#[derive(Clone, Copy)]
pub struct CountsLine {
    pub atoms: u32,
    pub bonds: u32,
}

/// What the words of a counts line say.
#[tactic(auto, unfolding(crate::specs::CountsLine::counts_of, crate::specs::CountsLine::count_at))]
pub fn counts_in(text: &[u8]) -> Result<CountsLine, ReadCause>
    ensures value { result ≡ counts_of (words_of text.now) }
    ensures range { IfOk result AreCounts }
{
    match next_word(text) {
        Some((word, rest)) if word == b"COUNTS".as_slice() => match next_number(16_384, rest) {
            Some((Some(atoms), rest)) => match next_number(32_768, rest) {
                Some((Some(bonds), _)) => Ok(CountsLine { atoms, bonds }),
                _ => Err(ReadCause::Counts),
            },
            _ => Err(ReadCause::Counts),
        },
        _ => Err(ReadCause::Frame),
    }
}

// Words that are between spaces.
ghost use Rattle.std.specs.Prelude.{◌≡◌, IfOk};
ghost use Rattle.cip_text.specs.Slices.{texts};
ghost use Rattle.cip_ctfile.specs.Spaces.{spaced_words_of};

use bstr::ByteSlice;
use std::alloc::{AllocError, Global};

/// The words of a text, which any number of spaces part.
#[tactic(auto, unfolding(crate::specs::Spaces::spaced_words_of))]
pub fn split_spaces(alloc: Global, text: &[u8]) -> Result<Vec<&[u8]>, AllocError>
    ensures { IfOk result (λ words. texts words.items ≡ spaced_words_of text.now) }
{
    text.split_str(b" ")
        .filter(|word| !word.is_empty())
        .collect(alloc)
}

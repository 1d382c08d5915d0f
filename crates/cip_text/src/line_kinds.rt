// What a line is for.
ghost use Rattle.std.specs.Prelude.{◌≡◌};
ghost use Rattle.cip_text.specs.Kinds.{are_spaces, is_blank, is_word, is_terminator, is_molecule_end};

use crate::line_reader::starts_with_byte;

/// Whether a line's content has spaces and tabs at most.
pub fn is_blank(content: &[u8]) -> bool
    ensures { result ≡ is_blank content.now }
{
    for byte in content {
        if !matches!(byte, b' ' | b'\t') {
            return false;
        }
    }
    true
}

/// Whether a line's content ends a record: `$$$$`, and spaces at most after it.
pub fn is_terminator(content: &[u8]) -> bool
    ensures { result ≡ is_terminator content.now }
{
    is_word(b"$$$$", content)
}

/// Whether a line's content ends a molfile: `M  END`, and spaces at most after it.
pub fn is_molecule_end(content: &[u8]) -> bool
    ensures { result ≡ is_molecule_end content.now }
{
    is_word(b"M  END", content)
}

// Whether a content is this word, with spaces at most after it.
fn is_word(word: &[u8], content: &[u8]) -> bool
    ensures { result ≡ is_word word.now content.now }
{
    let mut rest = content;
    for byte in word {
        if !starts_with_byte(rest, *byte) {
            return false;
        }
        rest = &rest[1..];
    }
    are_spaces(rest)
}

fn are_spaces(text: &[u8]) -> bool
    ensures { result ≡ are_spaces text.now }
{
    for byte in text {
        if *byte != b' ' {
            return false;
        }
    }
    true
}

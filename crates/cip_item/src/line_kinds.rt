// What a line of a record is for.
ghost use Rattle.std.specs.Prelude.{◌≡◌};
ghost use Rattle.cip_item.specs.Kinds.{is_heading, holds_label_name, is_label_heading};

use bstr::ByteSlice;
use cip_text::starts_with_byte;

/// The name of label items, as it is in their headings.
pub(crate) const LABEL_NAME: &[u8] = b"<CIP_LABELS>";

// Whether a line's content is the heading of a data item.
#[tactic(auto, using(cip_text::proofs::lemmas::Positions::first_position))]
pub(crate) fn is_heading(content: &[u8]) -> bool
    ensures { result ≡ is_heading content.now }
{
    match content.find_byte(b'<') {
        Some(place) if starts_with_byte(content, b'>') => content[place..].contains(&b'>'),
        _ => false,
    }
}

// Whether a line's content is the heading of a label item.
pub(crate) fn is_label_heading(content: &[u8]) -> bool
    ensures { result ≡ is_label_heading content.now }
{
    starts_with_byte(content, b'>') && holds_label_name(content)
}

// Whether the name of label items is somewhere in a text.
pub(crate) fn holds_label_name(text: &[u8]) -> bool
    ensures { result ≡ holds_label_name text.now }
{
    text.contains_str(LABEL_NAME)
}

// The fields of a line, by columns.
ghost use Rattle.std.specs.Prelude.{◌≡◌, ◌≤◌, ◌<◌};
ghost use Rattle.cip_text.specs.Columns.{field, without_spaces_before, trim_end_spaces};

/// What is in these columns of a line's content, counted from 1 and cut to what is there, without the
/// spaces around it.
pub fn columns(content: &[u8], first: u32, last: u32) -> &[u8]
    requires counted { 0 < first }
    requires ordered { first ≤ last }
    ensures { result.now ≡ field first last content.now }
{
    let start = (first as usize - 1).min(content.len());
    let end = (last as usize).min(content.len());
    trim_end_spaces(without_spaces_before(&content[start..end]))
}

/// A text without the spaces at its end.
pub fn trim_end_spaces(text: &[u8]) -> &[u8]
    ensures { result.now ≡ trim_end_spaces text.now }
{
    let mut rest = text;
    while let [before @ .., b' '] = rest {
        rest = before;
    }
    rest
}

fn without_spaces_before(text: &[u8]) -> &[u8]
    ensures { result.now ≡ without_spaces_before text.now }
{
    let mut rest = text;
    while let [b' ', behind @ ..] = rest {
        rest = behind;
    }
    rest
}

// Columns of a line that are written anew.
ghost use Rattle.std.specs.Prelude.{◌≡◌, ◌≤◌, ◌<◌, ◌++◌, ◌+◌, [], IfOk, OnOk, length, drop, slice_index_or};
ghost use Rattle.cip_edit.specs.Columns.{filled, with_columns};

use cip_text::push_right_aligned;
use std::alloc::{AllocError, Global};

/// A line in which a text is in the columns from the first to the last, counted from 1, right. A line that is
/// shorter is filled with spaces; all else is as before.
pub fn with_columns(
    alloc: Global,
    first: usize,
    last: usize,
    text: &[u8],
    line: &[u8],
) -> Result<Vec<u8>, AllocError>
    requires begins { 1 ≤ first }
    requires within { first ≤ last }
    requires few { last ≤ 80 }
    ensures { IfOk result (λ written. written.items ≡ with_columns first last text.now line.now) }
{
    let Ok(mut written) = Vec::with_capacity(alloc, line.len().max(last)) else {
        return Err(AllocError);
    };
    match push_columns(&mut written, first, last, text, line) {
        Ok(()) => Ok(written),
        Err(fault) => Err(fault),
    }
}

// Adds such a line to a text that is empty yet.
#[tactic(auto, unfolding(crate::specs::Columns::with_columns))]
fn push_columns(
    written: &mut Vec<u8>,
    first: usize,
    last: usize,
    text: &[u8],
    line: &[u8],
) -> Result<(), AllocError>
    requires begins { 1 ≤ first }
    requires within { first ≤ last }
    requires few { last ≤ 80 }
    requires none { written.old.items ≡ [] }
    ensures { OnOk result (written.new.items ≡ with_columns first last text.now line.now) }
{
    push_filled(written, first - 1, line)?;
    push_right_aligned(written, last + 1 - first, text)?;
    written.extend_from_slice(behind(last, line))
}

// Adds the first columns of a line, with a space for each that it lacks.
#[tactic(auto, using(crate::proofs::lemmas::CopiedColumns::one_column))]
fn push_filled(text: &mut Vec<u8>, columns: usize, line: &[u8]) -> Result<(), AllocError>
    ensures { OnOk result (text.new.items ≡ text.old.items ++ filled columns line.now) }
{
    for column in 0..columns {
        text.push(byte_at(column, line))?;
    }
    Ok(())
}

fn byte_at(column: usize, line: &[u8]) -> u8
    ensures { result ≡ slice_index_or line.now column 32 }
{
    match line.get(column) {
        Some(byte) => *byte,
        None => b' ',
    }
}

// What follows a column.
fn behind(column: usize, line: &[u8]) -> &[u8]
    ensures { result.now ≡ drop column line.now }
{
    if column < line.len() {
        &line[column..]
    } else {
        &[]
    }
}

// Texts that are written right in their columns, and numbers as they are written there.
ghost use Rattle.std.specs.Prelude.{◌≡◌, ◌++◌, IfOk, OnOk, string_bytes};
ghost use Rattle.cip_text.specs.Writing.{coordinate, right};

use std::alloc::{AllocError, Global};

/// Adds a text after as many spaces as it needs to end in the last of n columns.
#[tactic(auto, unfolding(crate::specs::Writing::right))]
pub fn push_right_aligned(line: &mut Vec<u8>, width: usize, text: &[u8]) -> Result<(), AllocError>
    ensures { OnOk result (line.new.items ≡ line.old.items ++ right width text.now) }
{
    for column in text.len()..width {
        let Ok(()) = line.push(b' ') else {
            return Err(AllocError);
        };
    }
    line.extend_from_slice(text)
}

/// A number of ten-thousandths with four decimals.
#[tactic(auto, unfolding(crate::specs::Writing::coordinate))]
pub fn coordinate(alloc: Global, value: i64) -> Result<String, AllocError>
    ensures { IfOk result (λ text. string_bytes text ≡ coordinate value) }
{
    let sign = if value < 0 { "-" } else { "" };
    let size = value.unsigned_abs();
    let whole = size / 10_000;
    let tenths = size / 1_000 % 10;
    let hundredths = size / 100 % 10;
    let thousandths = size / 10 % 10;
    let rest = size % 10;
    format!(in alloc; "{sign}{whole}.{tenths}{hundredths}{thousandths}{rest}")
}

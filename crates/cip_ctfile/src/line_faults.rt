// The lines of faults.
ghost use Rattle.std.specs.Prelude.{◌≡◌, ◌<◌, ◌+◌, ◌-◌, ◌^◌, length};
ghost use Rattle.cip_mol.specs.declared.labels.refusal.ReadCause.TheVariants.{Short};
ghost use Rattle.cip_ctfile.specs.Reading.{numbered};

use cip_mol::{ReadCause, ReadFault};

/// What was read of a line, with the line's number in its fault.
pub fn fault_at_line<T: Drop>(number: u32, read: Result<T, ReadCause>) -> Result<T, ReadFault>
    ensures { result ≡ numbered number read }
{
    match read {
        Ok(row) => Ok(row),
        Err(cause) => Err(ReadFault {
            line: number,
            cause,
        }),
    }
}

/// The fault of a line that is due and missing.
pub fn missing_line_fault(lines: &[&[u8]]) -> ReadFault
    requires { length lines.now < 2 ^ 32 - 1 }
    ensures { result ≡ record { line = length lines.now + 1; cause = Short } }
{
    ReadFault {
        line: lines.len() as u32 + 1,
        cause: ReadCause::Short,
    }
}

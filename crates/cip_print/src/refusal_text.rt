// How a refusal is written.
ghost use Rattle.std.specs.Prelude.{◌≡◌, IfOk, string_bytes};
ghost use Rattle.cip_print.specs.Refusals.{refusal_line};

use cip_mol::ReadFault;
use std::alloc::{AllocError, Global};

/// The line and the cause of a refusal.
pub fn refusal(alloc: Global, fault: ReadFault) -> Result<String, AllocError>
    ensures { IfOk result (λ value. string_bytes value ≡ refusal_line fault) }
{
    let line = fault.line;
    let cause = fault.cause;
    format!(in alloc; "refused {line} {cause}")
}

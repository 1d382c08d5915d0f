// Memory that is taken in parts.
ghost use Rattle.std.specs.Prelude.{◌≡◌, Ok, IfOk};

use std::alloc::AllocError;

/// Returns both values. If `other` is an error, returns it and drops `one`.
// proof: a function that reserves several tables has one exit by this, and drops none of them itself; nothing is proved
// of how `other` is dropped
pub fn zip_ok<A: Drop, B>(one: A, other: Result<B, AllocError>) -> Result<(A, B), AllocError>
    ensures one { IfOk result (λ parts. parts.0 ≡ one) }
    ensures other { IfOk result (λ parts. other ≡ Ok parts.1) }
{
    match other {
        Ok(other) => Ok((one, other)),
        Err(error) => Err(error),
    }
}

/// Returns both values. If one is an error, returns it and drops the other.
// proof: a function that reserves several columns has one exit by this
pub fn zip_results<A: Drop, B: Drop>(
    one: Result<A, AllocError>,
    other: Result<B, AllocError>,
) -> Result<(A, B), AllocError>
    ensures one { IfOk result (λ parts. one ≡ Ok parts.0) }
    ensures other { IfOk result (λ parts. other ≡ Ok parts.1) }
{
    match one {
        Ok(one) => zip_ok(one, other),
        Err(error) => Err(error),
    }
}

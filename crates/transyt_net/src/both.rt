//! Two results as one.

ghost use Rattle.std.specs.Prelude.{◌≡◌, IfOk, Ok};

use std::alloc::AllocError;

/// Both values, where both are there. Who makes all parts of a value so owns none of them across a `?`.
pub(crate) fn both<A: Drop, B: Drop>(
    a: Result<A, AllocError>,
    b: Result<B, AllocError>,
) -> Result<(A, B), AllocError>
    ensures first { IfOk result (λ pair. a ≡ Ok pair.0) }
    ensures second { IfOk result (λ pair. b ≡ Ok pair.1) }
{
    Ok((a?, b?))
}

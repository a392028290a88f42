//! The calls of a source or sink in memory that fail.
ghost use Rattle.std.specs.Prelude.{◌≡◌, ◌==◌};
ghost use Rattle.std.specs.List.{list_any};
ghost use Rattle.transyt_io.specs.Memory.{fails_next};

/// Whether a number is one of these.
fn is_among(number: u64, numbers: &[u32]) -> bool
    ensures { result ≡ list_any (λ each. each == number) numbers.now }
{
    numbers.iter().any(|each| u64::from(*each) == number)
}

/// Whether the call after `calls` calls has one of the numbers `fail`.
pub(crate) fn fails_next(fail: &[u32], calls: u64) -> bool
    ensures { result ≡ fails_next fail.now calls }
{
    calls < 4_294_967_295 && is_among(calls + 1, fail)
}

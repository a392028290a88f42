//! The step before a step.

ghost use Rattle.std.specs.Prelude.{◌≡◌, ◌<◌};
ghost use Rattle.transyt_cycle.specs.Cycle.{minus_mod, step_before};

/// The step before step `i` round a cycle of `n` steps: before step 0 stands the last.
pub fn step_before(n: u64, i: u64) -> u64
    requires { i < n }
    ensures value { result ≡ step_before n i }
    ensures below { result < n }
    ensures back { result ≡ minus_mod n i 1 }
{
    if i == 0 { n - 1 } else { i - 1 }
}

//! The difference of two steps round the cycle.

ghost use Rattle.std.specs.Prelude.{◌≡◌, ◌+◌, ◌%◌, ◌<◌};
ghost use Rattle.transyt_cycle.specs.Cycle.{minus_mod};

/// How many steps after step `b` step `a` comes, round a cycle of `n` steps: (a - b) mod n.
///
/// `a` and `b` may be any numbers, also past the cycle's end.
pub fn minus_mod(n: u64, a: u64, b: u64) -> u64
    requires { 0 < n }
    ensures value { result ≡ minus_mod n a b }
    ensures below { result < n }
    ensures back { (result + b) % n ≡ a % n }
{
    let from = b % n;
    let to = a % n;
    if from <= to {
        to - from
    } else {
        n - (from - to)
    }
}

//! The total of a profile over the cycle.

ghost use Rattle.std.specs.Prelude.{◌≡◌, ℕ, ◌*◌, ◌^◌, ◌<◌, ◌≤◌, length, sum, All};

/// The sum of a profile's values over the cycle, exact: `x` holds one for each step, and the sum is in their unit.
pub fn total(x: &[u64]) -> u64
    requires most { length x.now ≤ 120 }
    requires fit { All (λ v. v < 2 ^ 48) x.now }
    ensures value { result ≡ sum x.now }
    ensures small { result < 2 ^ 55 }
    ensures bounded { (limit : ℕ) → All (λ v. v ≤ limit) x.now → result ≤ length x.now * limit }
{
    let mut all: u64 = 0;
    for value in x {
        all += *value;
    }
    all
}

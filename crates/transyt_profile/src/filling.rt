//! A profile of one value, and two turns round the cycle that begin with it.

ghost use Rattle.std.specs.Prelude.{◌≡◌, ℕ, ◌*◌, ◌<◌, length, All};
ghost use Rattle.transyt_profile.specs.Profile.{folded, uniform};

/// Gives each step of the cycle the same value.
///
/// `out` holds one value for each step of the cycle, in millionths of a vehicle per step as `value` is. What stood
/// there is overwritten.
pub fn fill_uniform(value: u64, out: &mut [u64])
    ensures value { out.new ≡ uniform (length out.old) value }
    ensures bounded { (limit : ℕ) → value < limit → All (λ v. v < limit) out.new }
{
    for place in out.iter_mut() {
        *place = value;
    }
}

/// Starts two turns round a cycle of `step_count` steps: each step of the first gets the value, each of the second 0.
///
/// `turns` has twice as many values as there are steps, in millionths of a vehicle per step as `value` is. What stood
/// there is overwritten.
pub fn start_turns(step_count: usize, value: u64, turns: &mut [u64])
    requires { length turns.old ≡ 2 * step_count }
    ensures { folded step_count turns.new ≡ uniform step_count value }
{
    'first: for step in 0..step_count {
        turns[step] = value;
    }
    'second: for step in 0..step_count {
        turns[step_count + step] = 0;
    }
}

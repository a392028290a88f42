//! The sum of two profiles, and two turns round the cycle folded to one.

ghost use Rattle.std.specs.Prelude.{◌≡◌, ℕ, ◌+◌, ◌-◌, ◌*◌, ◌^◌, ◌<◌, length, All};
ghost use Rattle.transyt_profile.specs.Profile.{added, folded};

/// Adds the profile `x` to the profile `out`, step by step.
///
/// Both hold one value for each step of the cycle, in millionths of a vehicle per step. Nothing is rounded. The
/// limits leave room for the flow that enters a link from outside and its eight feeds; they are this project's own.
pub fn add_into(x: &[u64], out: &mut [u64])
    requires lengths { length x.now ≡ length out.old }
    requires fit { All (λ v. v < 2 ^ 44) x.now }
    requires out_fit { All (λ v. v < 2 ^ 48 - 2 ^ 44) out.old }
    ensures value { out.new ≡ added out.old x.now }
    ensures small { All (λ v. v < 2 ^ 48) out.new }
    ensures grows { (limit : ℕ) → All (λ v. v < limit) out.old
        → All (λ v. v < limit + 2 ^ 44) out.new }
{
    for i in 0..out.len() {
        out[i] += x[i];
    }
}

/// Adds the profile `x` to the first of two turns round the cycle, step by step.
///
/// `x` holds one value for each step of the cycle and `turns` twice as many, in millionths of a vehicle per step. The
/// limits are those of `add_into`, of both turns folded to one.
pub fn add_to_first(x: &[u64], turns: &mut [u64])
    requires lengths { length turns.old ≡ 2 * length x.now }
    requires fit { All (λ v. v < 2 ^ 44) x.now }
    requires turns_fit { All (λ v. v < 2 ^ 48 - 2 ^ 44) (folded (length x.now) turns.old) }
    ensures value { folded (length x.now) turns.new
        ≡ added (folded (length x.now) turns.old) x.now }
    ensures grows { (limit : ℕ) → All (λ v. v < limit) (folded (length x.now) turns.old)
        → All (λ v. v < limit + 2 ^ 44) (folded (length x.now) turns.new) }
{
    for i in 0..x.len() {
        turns[i] += x[i];
    }
}

/// Folds two turns round the cycle to one: writes the sum of both values of each step.
///
/// `out` has one value for each step of the cycle and `turns` twice as many, in millionths of a vehicle per step. What
/// stood in `out` is overwritten.
pub fn fold_into(turns: &[u64], out: &mut [u64])
    requires lengths { length turns.now ≡ 2 * length out.old }
    requires fit { All (λ v. v < 2 ^ 48) (folded (length out.old) turns.now) }
    ensures { out.new ≡ folded (length out.old) turns.now }
{
    let step_count = out.len();
    for i in 0..step_count {
        out[i] = turns[i] + turns[step_count + i];
    }
}

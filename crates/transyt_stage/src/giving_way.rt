//! GO of a link that gives way to another.

ghost use Rattle.std.specs.Prelude.{◌≡◌, ◌^◌, ◌<◌, ◌≤◌, length, All};
ghost use Rattle.transyt_stage.specs.Green.{yielded, yielding};

/// Lowers each step's GO by a part of the other link's departures in that step.
///
/// Both slices have one value for each step of the cycle, in millionths of a vehicle. `percent` is in per cent of
/// `other_out`, and the part is rounded down. A GO above 0 stays at least one unit. This project's own.
#[tactic(auto, using(std::proofs::lemmas::List::get_or_default))]
pub fn give_way(other_out: &[u64], percent: u32, go: &mut [u64])
    requires lengths { length other_out.now ≡ length go.old }
    requires other_fit { All (λ v. v < 2 ^ 30) other_out.now }
    requires go_fit { All (λ v. v < 2 ^ 30) go.old }
    requires percent { percent ≤ 400 }
    ensures value { go.new ≡ yielding percent other_out.now go.old }
    ensures small { All (λ v. v < 2 ^ 30) go.new }
{
    for i in 0..go.len() {
        go[i] = yielded(percent, other_out[i], go[i]);
    }
}

/// GO of one step, beside the other link.
fn yielded(percent: u32, other: u64, go: u64) -> u64
    requires percent { percent ≤ 400 }
    requires other { other < 2 ^ 30 }
    requires go { go < 2 ^ 30 }
    ensures value { result ≡ yielded percent other go }
    ensures small { result < 2 ^ 30 }
{
    if go == 0 {
        0
    } else {
        go.saturating_sub(u64::from(percent) * other / 100).max(1)
    }
}

//! The dispersion of a platoon.

ghost use Rattle.std.specs.Prelude.{◌≡◌, ℕ, ◌+◌, ◌-◌, ◌*◌, ◌/◌, ◌%◌, ◌^◌, ◌<◌, ◌≤◌, length, replicate, slice_index, sum, All, IsTrue};
ghost use Rattle.transyt_profile.specs.Platoon.{mixed, smoothed, dispersed};
ghost use Rattle.transyt_profile.specs.Passing.{Placed};

use crate::mixer::{Quick, travel_by};
use crate::spread::Spread;
use crate::total;

/// Writes the profile of a platoon at the end of its travel, in millionths of a vehicle per step.
///
/// `x` and `out` hold one value for each step of the cycle; what stood in `out` is overwritten. `t` is the
/// travel time in steps and `percent` the dispersion. This is Robertson's recurrence of LR 253. That it starts
/// from the mean, goes round the cycle twice and keeps the second turn, and rounds down at each step, is this
/// project's own.
pub fn disperse(x: &[u64], t: u32, percent: u32, out: &mut [u64])
    requires steps { 0 < length x.now }
    requires most { length x.now ≤ 120 }
    requires lengths { length x.now ≡ length out.old }
    requires fit { All (λ v. v < 2 ^ 44) x.now }
    requires travel { t ≤ 960 }
    requires percent { percent ≤ 100 }
    ensures value { out.new ≡ dispersed x.now t percent }
    // the value of each step of the second turn stands where t more steps lead
    ensures by_step { (j : ℕ) → length x.now < j → j ≤ 2 * length x.now →
        slice_index out.new ((j - 1 + t) % length x.now) ≡ smoothed x.now (percent * t) j }
    ensures small { All (λ v. v < 2 ^ 44) out.new }
    ensures uniform { (v : ℕ) → x.now ≡ replicate (length x.now) v → out.new ≡ x.now }
{
    let spread = Spread { time: t, percent };
    let total = total(x);
    let journey = Journey {
        profile: x,
        spread,
        weight: spread.weight(),
        total,
        mean: total / x.len() as u64,
    };
    go_round(&journey, out);
}

/// A profile that is to be dispersed: how it travels, and the mean from which its first turn starts.
#[derive(Clone, Copy)]
pub(crate) struct Journey<'a> {
    /// One value for each step of the cycle.
    pub(crate) profile: &'a [u64],
    /// The travel time and the dispersion.
    pub(crate) spread: Spread,
    /// The weight of the smoothed value a step before.
    pub(crate) weight: u64,
    /// The sum of the profile.
    pub(crate) total: u64,
    /// The mean of the profile, rounded down.
    pub(crate) mean: u64,
    ghost steps: { 0 < length profile.now },
    ghost fit: { All (λ v. v < 2 ^ 44) profile.now },
    ghost is_weight: { weight ≡ spread.percent * spread.time },
    ghost weight_fits: { weight ≤ 96000 },
    ghost is_total: { total ≡ sum profile.now },
    ghost is_mean: { mean ≡ sum profile.now / length profile.now },
    ghost mean_fits: { mean < 2 ^ 44 },
}

impl Journey<'_> {
    /// A number below which values leave room for products.
    fn most(&self) -> u64
        ensures fits { result * (100 + self.now.weight) * (100 + self.now.weight) ≤ 2 ^ 64 }
        ensures small { result < 2 ^ 44 }
    {
        if self.weight <= 8000 {
            274877906944
        } else {
            1073741824
        }
    }

    /// Whether all its values together are below `most`, and it takes time and disperses.
    fn leaves_room(&self, most: u64) -> bool
        ensures total { IsTrue result → sum self.now.profile.now < most }
        ensures percent { IsTrue result → 0 < self.now.spread.percent }
        ensures time { IsTrue result → 0 < self.now.spread.time }
    {
        self.total < most && 0 < self.spread.percent && 0 < self.spread.time
    }

    /// The passing traffic of one step: 100 parts of the departures and the weight's parts of the traffic a step before.
    fn mix(&self, starting: u64, before: u64) -> u64
        requires starting { starting < 2 ^ 44 }
        requires before { before < 2 ^ 44 }
        ensures value { result ≡ mixed self.now.weight starting before }
        ensures small { result < 2 ^ 44 }
    {
        (100 * starting + self.weight * before) / (100 + self.weight)
    }
}

/// Twice round the cycle from the mean: by products where the values leave room for them, else by divisions.
fn go_round(journey: &Journey<'_>, out: &mut [u64])
    requires { length journey.now.profile.now ≡ length out.old }
    ensures { Placed journey.now.profile.now out.new journey.now.spread.time
        journey.now.spread.percent (length journey.now.profile.now) }
{
    let most = journey.most();
    if journey.leaves_room(most) {
        travel_by(&Quick { journey, most }, out);
    } else {
        travel(journey, out);
    }
}

/// Twice round the cycle with a division in each step: the second turn is written.
fn travel(journey: &Journey<'_>, out: &mut [u64])
    requires { length journey.now.profile.now ≡ length out.old }
    ensures { Placed journey.now.profile.now out.new journey.now.spread.time
        journey.now.spread.percent (length journey.now.profile.now) }
{
    let x = journey.profile;
    let mut value = journey.mean;
    'first: for i in 0..x.len() {
        value = journey.mix(x[i], value);
    }
    let mut place = journey.spread.time as usize % x.len();
    'second: for i in 0..x.len() {
        value = journey.mix(x[i], value);
        out[place] = value;
        place = after(x.len(), place);
    }
}

/// The step after a step, round the cycle.
pub(crate) fn after(step_count: usize, step: usize) -> usize
    requires { step < step_count }
    ensures value { result ≡ (step + 1) % step_count }
    ensures below { result < step_count }
{
    if step + 1 == step_count { 0 } else { step + 1 }
}

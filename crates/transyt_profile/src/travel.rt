//! How a platoon travels: its travel time in steps, and the factors that follow from time and dispersion.

ghost use Rattle.std.specs.Prelude.{◌≡◌, ◌+◌, ◌*◌, ◌%◌, ◌<◌, ◌≤◌};
ghost use Rattle.transyt_profile.specs.Platoon.{travel_steps};

use crate::spread::Spread;

/// The travel time in steps of a cycle of `cycle` seconds that has `step_count` steps.
///
/// It is 0.8 of `cruise`, the cruise time in seconds, rounded to the nearest step, a half up. That the
/// platoon's travel time is a part of the cruise time is from LR 253; that the part is always 0.8, and the
/// rounding, are this project's own.
pub fn travel_steps(cruise: u32, step_count: u32, cycle: u32) -> u32
    requires cruise { cruise ≤ 300 }
    requires step_count { step_count ≤ 120 }
    requires least_cycle { 30 ≤ cycle }
    requires most_cycle { cycle ≤ 240 }
    ensures value { result ≡ travel_steps cruise step_count cycle }
    ensures within { result ≤ 960 }
{
    (8 * cruise * step_count + 5 * cycle) / (10 * cycle)
}

/// A travel time and a dispersion, with the factors that follow from both: 100 and the weight, each times the reciprocal
/// of their sum. Products of values below the limit have room.
#[derive(Clone, Copy)]
pub struct Travel {
    /// The travel time in steps.
    pub time: u32,
    /// The dispersion in percent.
    pub percent: u32,
    /// The weight of the smoothed value a step before, against 100 for the value that sets out: dispersion times time.
    pub weight: u64,
    /// Profiles whose values are all below this are mixed by products.
    pub limit: u64,
    /// The reciprocal of 100 and the weight, against 2^40.
    pub reciprocal: u64,
    /// 100 times the reciprocal: the factor of the value that sets out.
    pub starting_factor: u64,
    /// The weight times the reciprocal: the factor of the smoothed value a step before.
    pub before_factor: u64,
    /// The step that the first step leads to.
    pub place: usize,
    pub ghost is_weight: { weight ≡ percent * time },
    pub ghost weight_fits: { weight ≤ 96000 },
    pub ghost limit_fits: { limit ≤ 4194304 },
    pub ghost room: { limit * (100 + weight) * (100 + weight) ≤ 1099511627776 },
    pub ghost least: { 1099511627776 ≤ reciprocal * (100 + weight) },
    pub ghost close: { reciprocal * (100 + weight) < 1099511627776 + (100 + weight) },
    pub ghost is_starting: { starting_factor ≡ 100 * reciprocal },
    pub ghost is_before: { before_factor ≡ weight * reciprocal },
}

/// A travel round a cycle of `step_count` steps, made ready for `disperse_together`.
#[tactic(auto, using(transyt_num::proofs::ReciprocalLaws::reciprocal_least, transyt_num::proofs::ReciprocalLaws::reciprocal_close))]
pub fn travel_of(spread: Spread, step_count: usize) -> Travel
    requires { 0 < step_count }
    ensures time { result.time ≡ spread.time }
    ensures percent { result.percent ≡ spread.percent }
    ensures place { result.place ≡ spread.time % step_count }
{
    let weight = spread.weight();
    let reciprocal = 1099511627775 / (100 + weight) + 1;
    Travel {
        time: spread.time,
        percent: spread.percent,
        weight,
        limit: limit_of(spread),
        reciprocal,
        starting_factor: 100 * reciprocal,
        before_factor: weight * reciprocal,
        place: spread.time as usize % step_count,
    }
}

/// A number below which values leave room for products with the weight of a spread.
fn limit_of(spread: Spread) -> u64
    ensures small { result ≤ 4194304 }
    ensures room { result * (100 + spread.percent * spread.time)
        * (100 + spread.percent * spread.time) ≤ 1099511627776 }
{
    let weight = spread.weight();
    let square = (100 + weight) * (100 + weight);
    (1099511627776 / square).min(4194304)
}

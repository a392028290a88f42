//! A link's part of the performance index.

ghost use Rattle.std.specs.Prelude.{◌≡◌, ◌^◌, ◌<◌, ◌≤◌};
ghost use Rattle.transyt_parts.specs.Valid.{AreWeights};
ghost use Rattle.transyt_delay.specs.Figures.{index_of};

use transyt_parts::Weights;

/// A link's part of the performance index: its weighted delay and its weighted stops, these rounded down.
///
/// `uniform` and `random` are delays and `stops` is a rate, in millionths as in `Figures`, and the index is in the
/// same. `stop_penalty` is the weight of a stop against delay, in hundredths. The weighted sum is from LR 253; its
/// scale and rounding are this project's own.
pub fn weigh(uniform: u64, random: u64, stops: u64, stop_penalty: u32, weights: Weights) -> u128
    requires uniform_fits { uniform < 2 ^ 63 }
    requires random_fits { random < 2 ^ 63 }
    requires stop_penalty_fits { stop_penalty ≤ 9999 }
    requires weights_fit { AreWeights weights }
    ensures value { result ≡ index_of uniform random stops stop_penalty weights }
    ensures small { result < 2 ^ 89 }
{
    let delay = u128::from(uniform) + u128::from(random);
    let stopping = u128::from(weights.stop) * u128::from(stop_penalty) * u128::from(stops);
    u128::from(weights.delay) * delay + stopping / 100
}

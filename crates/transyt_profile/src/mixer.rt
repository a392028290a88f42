//! The dispersion of a platoon by products in place of quotients.

ghost use Rattle.std.specs.Prelude.{◌≡◌, ℕ, ◌+◌, ◌*◌, ◌/◌, ◌%◌, ◌^◌, ◌<◌, ◌≤◌, length, slice_index, sum};
ghost use Rattle.transyt_profile.specs.Platoon.{mixed};
ghost use Rattle.transyt_profile.specs.Passing.{Placed};

use crate::dispersion::{Journey, after};
use transyt_num::reciprocal;

/// A journey that takes time and disperses, and whose values leave room for products.
#[derive(Clone, Copy)]
pub(crate) struct Quick<'a> {
    /// The journey.
    pub(crate) journey: &'a Journey<'a>,
    /// The sum of its profile is below this, and so is each value.
    pub(crate) most: u64,
    ghost fit: { sum journey.now.profile.now < most },
    ghost room: { most * (100 + journey.now.weight) * (100 + journey.now.weight) ≤ 2 ^ 64 },
    ghost most_fits: { most < 2 ^ 44 },
    ghost some_travel: { 0 < journey.now.spread.time },
    ghost some_percent: { 0 < journey.now.spread.percent },
}

/// The factors of `travel_by`, which take the place of a division.
#[derive(Clone, Copy)]
struct Mixer {
    /// The weight of the smoothed value a step before, against 100 for the value that sets out.
    weight: u64,
    /// Values below this are mixed.
    most: u64,
    /// The reciprocal of 100 and the weight, against 2^64.
    reciprocal: u64,
    /// 100 times the reciprocal: the factor of the value that sets out.
    starting_factor: u64,
    /// The weight times the reciprocal: the factor of the smoothed value a step before.
    before_factor: u64,
    ghost some: { 0 < weight },
    ghost weight_fits: { weight ≤ 96000 },
    ghost room: { most * (100 + weight) * (100 + weight) ≤ 2 ^ 64 },
    ghost most_fits: { most < 2 ^ 44 },
    ghost least: { 2 ^ 64 ≤ reciprocal * (100 + weight) },
    ghost close: { reciprocal * (100 + weight) < 2 ^ 64 + (100 + weight) },
    ghost starting: { starting_factor ≡ 100 * reciprocal },
    ghost before: { before_factor ≡ weight * reciprocal },
}

impl Mixer {
    /// Those of a journey.
    fn new(quick: &Quick<'_>) -> Mixer
        ensures weight { result.weight ≡ quick.now.journey.now.weight }
        ensures most { result.most ≡ quick.now.most }
    {
        let weight = quick.journey.weight;
        let reciprocal = reciprocal(100 + weight);
        Mixer {
            weight,
            most: quick.most,
            reciprocal,
            starting_factor: 100 * reciprocal,
            before_factor: weight * reciprocal,
        }
    }

    /// The passing traffic of one step, where `before` went by a step before.
    fn mix(&self, starting: u64, before: u64) -> u64
        requires starting { starting < self.now.most }
        requires before { before < self.now.most }
        ensures value { result ≡ mixed self.now.weight starting before }
        ensures small { result < self.now.most }
    {
        let mixed = u128::from(starting) * u128::from(self.starting_factor)
            + u128::from(before) * u128::from(self.before_factor);
        (mixed >> 64) as u64
    }
}

/// Twice round the cycle by products: the second turn is written.
pub(crate) fn travel_by(quick: &Quick<'_>, out: &mut [u64])
    requires { length quick.now.journey.now.profile.now ≡ length out.old }
    ensures { Placed quick.now.journey.now.profile.now out.new quick.now.journey.now.spread.time
        quick.now.journey.now.spread.percent (length quick.now.journey.now.profile.now) }
{
    let journey = quick.journey;
    let x = journey.profile;
    let mixer = Mixer::new(quick);
    let mut value = journey.mean;
    'first: for i in 0..x.len() {
        value = mixer.mix(x[i], value);
    }
    let mut place = journey.spread.time as usize % x.len();
    'second: for i in 0..x.len() {
        value = mixer.mix(x[i], value);
        out[place] = value;
        place = after(x.len(), place);
    }
}

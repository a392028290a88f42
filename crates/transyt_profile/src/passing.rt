//! A platoon as it goes by, step by step.

ghost use Rattle.std.specs.Prelude.{◌≡◌, ℕ, ◌+◌, ◌*◌, ◌^◌, ◌<◌, length, slice_index, sum, All};
ghost use Rattle.transyt_profile.specs.Arriving.{sent};
ghost use Rattle.transyt_profile.specs.Passing.{Fits, HasPassed, IsOf, arrived, steps_of};
ghost use Rattle.transyt_profile.specs.Platoon.{mixed};

use crate::platoon::Platoon;
use crate::start::Start;

/// The value of a platoon that went by last, with the numbers of its travel: they are at hand here, while those that a
/// platoon borrows would be read again at each step.
#[derive(Clone, Copy)]
pub(crate) struct Passing {
    /// The value that went by last.
    pub(crate) value: u64,
    /// The factor of the value a step before.
    pub(crate) factor: u64,
    /// The step that the first step leads to.
    pub(crate) place: usize,
}

impl Passing {
    /// Before the first step, as if the mean had gone by; `total` is the sum of the departures that set out.
    pub(crate) fn begin(platoon: &Platoon<'_>, total: u64) -> Passing
        requires fits { Fits platoon.now }
        requires total { total ≡ sum (sent platoon.now) }
        ensures { HasPassed platoon.now 0 result }
    {
        Passing {
            value: total / platoon.leaving.len() as u64,
            factor: platoon.travel.before_factor,
            place: platoon.travel.place,
        }
    }

    /// The value that goes by at a step.
    fn mix(&self, start: &Start<'_>) -> u64
        requires { IsOf start.now.platoon.now self.now }
        ensures value { result ≡ mixed start.now.platoon.now.travel.now.weight
            (slice_index (sent start.now.platoon.now) start.now.step) self.now.value }
        ensures small { result < start.now.platoon.now.travel.now.limit }
    {
        (start.product + self.value * self.factor) >> 40
    }

    /// A step of the first turn goes by.
    pub(crate) fn pass(&mut self, start: &Start<'_>)
        requires { HasPassed start.now.platoon.now start.now.step self.old }
        ensures { HasPassed start.now.platoon.now (start.now.step + 1) self.new }
    {
        self.value = self.mix(start);
    }

    /// A step of the second turn goes by, and is added where it arrives: as many steps on as the first one is led,
    /// without going round the cycle.
    pub(crate) fn arrive(&mut self, start: &Start<'_>, turns: &mut [u64])
        requires passed { HasPassed start.now.platoon.now
            (steps_of start.now.platoon.now + start.now.step) self.old }
        requires turns_len { length turns.old ≡ 2 * steps_of start.now.platoon.now }
        requires fit { All (λ v. v < 2 ^ 62) turns.old }
        ensures passed { HasPassed start.now.platoon.now
            (steps_of start.now.platoon.now + (start.now.step + 1)) self.new }
        ensures arrives { (j : ℕ) →
            slice_index turns.new j + arrived start.now.step j start.now.platoon.now
            ≡ slice_index turns.old j + arrived (start.now.step + 1) j start.now.platoon.now }
        ensures grows { (limit : ℕ) → All (λ v. v < limit) turns.old
            → All (λ v. v < limit + 2 ^ 22) turns.new }
    {
        self.value = self.mix(start);
        turns[self.place + start.step] += self.value;
    }
}

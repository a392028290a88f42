//! Platoons side by side.

ghost use Rattle.std.specs.Prelude.{◌≡◌, ℕ, ◌+◌, ◌*◌, ◌^◌, ◌<◌, ◌≤◌, length, slice_index, sum_by, All, Any, IsTrue};
ghost use Rattle.transyt_profile.specs.Arriving.{sent};
ghost use Rattle.transyt_profile.specs.Passing.{AreReady, AreTotals, HavePassed, arrived};

use crate::group::{Abreast, Group};
use crate::passing::Passing;
use crate::readying::{Lane, share_ready};
use crate::start::Start;

/// Makes the products of platoons ready, each in a lane of its own, with the sum of each, and says so; says no at the
/// first that has a value not below the limit of its travel.
pub(crate) fn fill_lanes(group: &Group<'_>, lanes: &mut [u64], totals: &mut [u64; 4]) -> bool
    requires { length lanes.old ≡ 4 * group.now.step_count }
    ensures ready { IsTrue result → AreReady group.now.step_count lanes.new group.now.platoons.now }
    ensures totals { IsTrue result → AreTotals totals.new group.now.platoons.now }
    ensures refused { (IsTrue result → ⊥)
        → Any (λ p. Any (λ v. p.travel.now.limit ≤ v) (sent p)) group.now.platoons.now }
{
    let platoons = group.platoons;
    for number in 0..platoons.len() {
        let lane = Lane {
            platoon: &platoons[number],
            number,
        };
        match share_ready(&lane, lanes) {
            Some(total) => totals[number] = total,
            None => return false,
        }
    }
    true
}

impl<const N: usize> Abreast<'_, N> {
    /// Each platoon before its first step.
    pub(crate) fn begin_each(&self) -> [Passing; N]
        ensures { HavePassed self.now.ready.platoons.now 0 result }
    {
        let none = Passing {
            value: 0,
            factor: 0,
            place: 0,
        };
        let mut goings = [none; N];
        for lane in 0..N {
            goings[lane] = Passing::begin(&self.ready.platoons[lane], self.ready.totals[lane]);
        }
        goings
    }

    /// A step of the first turn of each platoon goes by.
    pub(crate) fn pass_each(&self, step: usize, goings: &mut [Passing; N])
        requires step { step < self.now.ready.step_count }
        requires passed { HavePassed self.now.ready.platoons.now step goings.old }
        ensures { HavePassed self.now.ready.platoons.now (step + 1) goings.new }
    {
        for lane in 0..N {
            let start = Start {
                platoon: &self.ready.platoons[lane],
                step,
                product: self.ready.lanes[4 * step + lane],
            };
            goings[lane].pass(&start);
        }
    }

    /// A step of the second turn of each platoon goes by, and is added where it arrives.
    pub(crate) fn arrive_each(&self, step: usize, goings: &mut [Passing; N], turns: &mut [u64])
        requires step { step < self.now.ready.step_count }
        requires passed { HavePassed self.now.ready.platoons.now (self.now.ready.step_count + step)
            goings.old }
        requires turns_len { length turns.old ≡ 2 * self.now.ready.step_count }
        requires fit { All (λ v. v < 2 ^ 61) turns.old }
        ensures passed { HavePassed self.now.ready.platoons.now
            (self.now.ready.step_count + (step + 1)) goings.new }
        ensures arrives { (j : ℕ) →
            slice_index turns.new j + sum_by (arrived step j) self.now.ready.platoons.now
            ≡ slice_index turns.old j + sum_by (arrived (step + 1) j) self.now.ready.platoons.now }
        ensures grows { (limit : ℕ) → All (λ v. v < limit) turns.old
            → All (λ v. v < limit + length self.now.ready.platoons.now * 2 ^ 22) turns.new }
    {
        for lane in 0..N {
            let start = Start {
                platoon: &self.ready.platoons[lane],
                step,
                product: self.ready.lanes[4 * step + lane],
            };
            goings[lane].arrive(&start, turns);
        }
    }
}

//! Platoons dispersed side by side.

ghost use Rattle.std.specs.Prelude.{◌≡◌, ℕ, ◌+◌, ◌*◌, ◌^◌, ◌<◌, ◌≤◌, length, slice_index, sum_by, All, Any, IsTrue};
ghost use Rattle.transyt_profile.specs.Arriving.{sent, with_arriving};
ghost use Rattle.transyt_profile.specs.Passing.{HavePassed, arrived};
ghost use Rattle.transyt_profile.specs.Profile.{folded};

use crate::abreast::fill_lanes;
use crate::group::{Abreast, Group, Ready};
use crate::passing::Passing;

/// Disperses the platoons of a group, each with its own travel as `disperse` does, adds them to two turns round the cycle,
/// and says so; adds nothing where a value of one is at the limit of its travel or past it.
///
/// A step of a platoon has one product, so four side by side take little more time than one, and each step is added
/// where it arrives, past the end of the first turn or not: `fold_into` of `transyt_profile` makes one turn of both.
/// `lanes` is room for four values for each step, and `turns` has two.
pub fn disperse_together(group: &Group<'_>, lanes: &mut [u64], turns: &mut [u64]) -> bool
    requires lanes_len { length lanes.old ≡ 4 * group.now.step_count }
    requires turns_len { length turns.old ≡ 2 * group.now.step_count }
    requires fit { All (λ v. v < 2 ^ 48) (folded group.now.step_count turns.old) }
    ensures value { IsTrue result → folded group.now.step_count turns.new
        ≡ with_arriving (folded group.now.step_count turns.old) group.now.platoons.now }
    ensures grows { IsTrue result → (limit : ℕ)
        → All (λ v. v < limit) (folded group.now.step_count turns.old)
        → All (λ v. v < limit + length group.now.platoons.now * 2 ^ 22)
        (folded group.now.step_count turns.new) }
    ensures refused { (IsTrue result → ⊥)
        → Any (λ p. Any (λ v. p.travel.now.limit ≤ v) (sent p)) group.now.platoons.now }
    ensures stays { (IsTrue result → ⊥) → turns.new ≡ turns.old }
{
    let mut totals = [0; 4];
    if !fill_lanes(group, lanes, &mut totals) {
        return false;
    }
    let ready = Ready {
        platoons: group.platoons,
        lanes,
        totals: &totals,
        step_count: group.step_count,
    };
    add_all(&ready, turns);
    true
}

/// Adds platoons whose products are ready to two turns round the cycle.
fn add_all(ready: &Ready<'_>, turns: &mut [u64])
    requires turns_len { length turns.old ≡ 2 * ready.now.step_count }
    requires fit { All (λ v. v < 2 ^ 48) (folded ready.now.step_count turns.old) }
    ensures value { folded ready.now.step_count turns.new
        ≡ with_arriving (folded ready.now.step_count turns.old) ready.now.platoons.now }
    ensures grows { (limit : ℕ) → All (λ v. v < limit) (folded ready.now.step_count turns.old)
        → All (λ v. v < limit + length ready.now.platoons.now * 2 ^ 22)
        (folded ready.now.step_count turns.new) }
{
    let count = ready.platoons.len();
    let ready = *ready;
    if count == 4 {
        Abreast::<4> { ready }.add_each(turns);
    } else if count == 3 {
        Abreast::<3> { ready }.add_each(turns);
    } else if count == 2 {
        Abreast::<2> { ready }.add_each(turns);
    } else {
        Abreast::<1> { ready }.add_each(turns);
    }
}

impl<const N: usize> Abreast<'_, N> {
    /// Adds the platoons to two turns round the cycle. Their number is known, so no step of one is kept in memory.
    fn add_each(&self, turns: &mut [u64])
        requires turns_len { length turns.old ≡ 2 * self.now.ready.step_count }
        requires fit { All (λ v. v < 2 ^ 48) (folded self.now.ready.step_count turns.old) }
        ensures value { folded self.now.ready.step_count turns.new
            ≡ with_arriving (folded self.now.ready.step_count turns.old) self.now.ready.platoons.now }
        ensures grows { (limit : ℕ)
            → All (λ v. v < limit) (folded self.now.ready.step_count turns.old)
            → All (λ v. v < limit + length self.now.ready.platoons.now * 2 ^ 22)
            (folded self.now.ready.step_count turns.new) }
    {
        let mut goings: [Passing; N] = self.begin_each();
        self.pass_turn(&mut goings);
        self.arrive_turn(&mut goings, turns);
    }

    /// The first turn of each platoon goes by: four steps at a time, so that there are a fourth of the rounds of the loop, and
    /// then one by one.
    fn pass_turn(&self, goings: &mut [Passing; N])
        requires { HavePassed self.now.ready.platoons.now 0 goings.old }
        ensures { HavePassed self.now.ready.platoons.now self.now.ready.step_count goings.new }
    {
        let step_count = self.ready.step_count;
        let fours = step_count / 4;
        for four in 0..fours {
            let step = 4 * four;
            self.pass_each(step, goings);
            self.pass_each(step + 1, goings);
            self.pass_each(step + 2, goings);
            self.pass_each(step + 3, goings);
        }
        for step in 4 * fours..step_count {
            self.pass_each(step, goings);
        }
    }

    /// The second turn of each platoon goes by, four steps at a time too, and each is added where it arrives.
    fn arrive_turn(&self, goings: &mut [Passing; N], turns: &mut [u64])
        requires passed { HavePassed self.now.ready.platoons.now self.now.ready.step_count goings.old }
        requires turns_len { length turns.old ≡ 2 * self.now.ready.step_count }
        requires fit { All (λ v. v < 2 ^ 48) turns.old }
        ensures { (j : ℕ) → slice_index turns.new j ≡ slice_index turns.old j
            + sum_by (arrived self.now.ready.step_count j) self.now.ready.platoons.now }
    {
        let step_count = self.ready.step_count;
        let fours = step_count / 4;
        for four in 0..fours {
            let step = 4 * four;
            self.arrive_each(step, goings, turns);
            self.arrive_each(step + 1, goings, turns);
            self.arrive_each(step + 2, goings, turns);
            self.arrive_each(step + 3, goings, turns);
        }
        for step in 4 * fours..step_count {
            self.arrive_each(step, goings, turns);
        }
    }
}

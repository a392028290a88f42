//! Platoons that are dispersed side by side.

ghost use Rattle.std.specs.Prelude.{◌≡◌, ◌*◌, ◌<◌, ◌≤◌, length, All};
ghost use Rattle.transyt_profile.specs.Passing.{AreReady, AreTotals, steps_of};

use crate::platoon::Platoon;

/// One to four platoons that go round one cycle.
#[derive(Clone, Copy)]
pub struct Group<'a> {
    /// The steps of the cycle.
    pub step_count: usize,
    /// The platoons, in the order of their lanes.
    pub platoons: &'a [Platoon<'a>],
    pub ghost steps: { 0 < step_count },
    pub ghost most: { step_count ≤ 120 },
    pub ghost some: { 0 < length platoons.now },
    pub ghost few: { length platoons.now ≤ 4 },
    pub ghost same: { All (λ p. steps_of p ≡ step_count) platoons.now },
}

/// The platoons of a group, the products of each ready in a lane of its own, with their sums.
#[derive(Clone, Copy)]
pub(crate) struct Ready<'a> {
    /// The platoons, in the order of their lanes.
    pub(crate) platoons: &'a [Platoon<'a>],
    /// Four products for each step of the cycle, one of each lane.
    pub(crate) lanes: &'a [u64],
    /// The sum of each platoon as it sets out, in the order of their lanes.
    pub(crate) totals: &'a [u64],
    /// The steps of the cycle.
    pub(crate) step_count: usize,
    ghost steps: { 0 < step_count },
    ghost most: { step_count ≤ 120 },
    ghost some: { 0 < length platoons.now },
    ghost few: { length platoons.now ≤ 4 },
    ghost lanes_len: { length lanes.now ≡ 4 * step_count },
    ghost totals_len: { length totals.now ≡ 4 },
    ghost ready: { AreReady step_count lanes.now platoons.now },
    ghost sums: { AreTotals totals.now platoons.now },
}

/// Platoons that are ready and whose number is known.
#[derive(Clone, Copy)]
pub(crate) struct Abreast<'a, const N: usize> {
    /// The platoons.
    pub(crate) ready: Ready<'a>,
    ghost count: { length ready.platoons.now ≡ N },
}

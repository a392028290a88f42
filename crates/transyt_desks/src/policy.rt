//! When several desks try together, and how many places each of them tries.

ghost use Rattle.std.specs.Prelude.{◌≡◌, ◌<◌, ◌≤◌, false};
ghost use Rattle.transyt_desks.specs.Rounds.{each_of, goes_alone, is_early, least_of, trying_of};

use crate::desk_count::DeskCount;
use crate::split::Split;
use transyt_climb::Climber;

/// A climb is early for the desks that try until each of them had its part of so many lists: two lists for two desks, one
/// for four. Steps are frequent then.
pub(crate) const LISTS_EARLY: u64 = 4;

/// Up to so many places after a step, desk 0 goes on alone in an early climb.
pub(crate) const PLACES_ALONE: u32 = 8;

/// Up to so many places after a step, at most `DESKS_SOON` desks try.
pub(crate) const PLACES_SOON: u32 = 64;

/// So many desks try soon after a step.
pub(crate) const DESKS_SOON: usize = 4;

/// Late in a climb all desks that try have together at least so many places.
pub(crate) const PLACES_LATE: u32 = 4;

/// All desks that try have together one place more for so many since the last step.
pub(crate) const PLACES_FOR_ONE: u32 = 2;

/// Each desk tries at most so many places.
pub(crate) const MOST_PLACES: u32 = 32;

/// Whether a climb is early for so many desks that try.
fn is_early(trying: DeskCount, climber: &Climber) -> bool
    ensures value { result ≡ is_early trying.number climber.now }
{
    u64::from(climber.looked()) * (trying.number as u64) < LISTS_EARLY * u64::from(climber.count())
}

/// Whether desk 0 of so many goes on alone: where there is no other, and early in a climb for some places after a step.
pub(crate) fn goes_alone(desks: DeskCount, climber: &Climber) -> bool
    ensures value { result ≡ goes_alone desks.number climber.now }
    ensures several { result ≡ false → 1 < desks.number }
{
    if desks.number == 1 {
        return true;
    }
    let trying = trying(desks, climber);
    climber.looked() > 0 && is_early(trying, climber) && climber.since() < PLACES_ALONE
}

/// How many of so many desks try: a few soon after a step, and then all.
fn trying(desks: DeskCount, climber: &Climber) -> DeskCount
    ensures value { result.number ≡ trying_of desks.number climber.now }
    ensures within { result.number ≤ desks.number }
    ensures several { 1 < desks.number → 1 < result.number }
{
    if climber.since() < PLACES_SOON {
        return DeskCount {
            number: desks.number.min(DESKS_SOON),
        };
    }
    desks
}

/// How many places each of so many desks tries at least.
fn least(desks: DeskCount, climber: &Climber) -> u32
    ensures value { result ≡ least_of desks.number climber.now }
    ensures some { 0 < result }
{
    if is_early(desks, climber) {
        return 1;
    }
    PLACES_LATE.div_ceil(desks.number as u32)
}

/// How many places each of so many desks tries.
fn each(desks: DeskCount, climber: &Climber) -> u32
    ensures value { result ≡ each_of desks.number climber.now }
    ensures some { 0 < result }
    ensures few { result ≤ 64 }
{
    let places = climber.since() / (PLACES_FOR_ONE * desks.number as u32);
    places.max(least(desks, climber)).min(MOST_PLACES)
}

/// Which of several desks try, and how many places each of them.
pub(crate) fn split(desks: DeskCount, climber: &Climber) -> Split
    requires several { 1 < desks.number }
    ensures desks { result.desks.number ≡ trying_of desks.number climber.now }
    ensures each { result.each
        ≡ each_of (trying_of desks.number climber.now) climber.now }
    ensures within { result.desks.number ≤ desks.number }
{
    let trying = trying(desks, climber);
    Split {
        desks: trying,
        each: each(trying, climber),
    }
}

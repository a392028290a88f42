//! The figures of a link.

ghost use Rattle.std.specs.Prelude.{◌≡◌, ◌+◌, ◌^◌, ◌<◌, ◌≤◌};
ghost use Rattle.transyt_delay.specs.Figures.{InLimits, figures, in_period, under_root};
ghost use Rattle.transyt_num.specs.Root.{root};

use crate::index::weigh;
use crate::random::random_delay;
use crate::terms::{Terms, TermsFrame};
use transyt_num::mul_div;

/// The figures of one link.
///
/// That uniform delay is the mean queue is from LR 253. The random delay is after the sheared form of later
/// versions; it, the count of stops and each rounding are this project's own.
#[derive(Clone, Copy, PartialEq, Eq)]
pub struct Figures {
    /// The mean queue over the steps of a cycle, in millionths of a vehicle, rounded down.
    pub uniform: u64,
    /// The delay of chance and oversaturation on top of it, in millionths of a vehicle, rounded down.
    pub random: u64,
    /// Stops per second, in millionths, rounded down.
    pub stops: u64,
    /// The link's part of the performance index, in millionths, the stops' share of it rounded down.
    pub index: u128,
}

/// The figures of a link from its terms.
///
/// The terms are sums over one cycle, in millionths of a vehicle. Arrivals and GO are taken to the
/// period first, each rounded down, and then the random delay is worked out.
pub fn figures_of(terms: &Terms) -> Figures
    requires limits { InLimits terms.now }
    ensures value { result ≡ figures terms.now }
    ensures uniform_small { result.uniform < 2 ^ 63 }
    ensures random_small { result.random < 2 ^ 63 }
    ensures index_small { result.index < 2 ^ 89 }
    // the random delay is a difference that never is below 0
    ensures covered { in_period terms.now.frame terms.now.room
        ≤ root (under_root (in_period terms.now.frame terms.now.arrivals)
        (in_period terms.now.frame terms.now.room))
        + in_period terms.now.frame terms.now.arrivals }
{
    let come = in_period(&terms.frame, terms.arrivals);
    let room = in_period(&terms.frame, terms.room);
    let uniform = terms.queued / u64::from(terms.frame.step_count);
    let random = random_delay(come, room);
    let stops = terms.stopped / u64::from(terms.frame.cycle);
    let index = weigh(
        uniform,
        random,
        stops,
        terms.frame.stop_penalty,
        terms.weights,
    );
    Figures {
        uniform,
        random,
        stops,
        index,
    }
}

/// The total of the period, by that of a cycle, rounded down.
fn in_period(frame: &TermsFrame, total: u64) -> u64
    requires cycle { 30 ≤ frame.now.cycle }
    requires period { frame.now.period ≤ 120 }
    requires total { total < 2 ^ 55 }
    ensures value { result ≡ in_period frame.now total }
    ensures small { result < 2 ^ 63 }
{
    mul_div(60 * u64::from(frame.period), total, u64::from(frame.cycle)) as u64
}

//! The factors of a feed, which are worked out of its numbers once, and kept.

ghost use Rattle.std.specs.Prelude.{◌≡◌, ◌%◌, ◌≤◌};
ghost use Rattle.transyt_profile.specs.Platoon.{travel_steps};
ghost use Rattle.transyt_sweep.specs.Inflow.{AreFactors};

use transyt_net::Net;
use transyt_profile::{Part, Spread, Travel, part_of, travel_of, travel_steps};

/// A feed's part of its feeder's departures, and how its platoon travels: both are worked out of a feed's numbers once.
///
/// It is right for the numbers that stand in it, whatever the network: the flow and its whole in `part`, the dispersion
/// in `travel`, the cruise time and the cycle. The feeder's place is only where to look first.
#[derive(Clone, Copy)]
pub(crate) struct Factors {
    /// The place at which the feeder was found.
    pub(crate) feeder: usize,
    /// The cruise time, in seconds.
    pub(crate) cruise: u32,
    /// The cycle, in seconds.
    pub(crate) cycle: u32,
    /// The feed's part of its feeder's departures.
    pub(crate) part: Part,
    /// How its platoon travels.
    pub(crate) travel: Travel,
}

impl Factors {
    /// Those of no flow, which takes no time.
    pub(crate) fn none(net: &Net) -> Factors
        ensures { AreFactors net.now.frame.step_count result }
    {
        Factors {
            feeder: 0,
            cruise: 0,
            cycle: net.frame().cycle,
            part: part_of(0, 0),
            travel: travel(net, 0),
        }
    }
}

/// How a platoon travels whose cruise time is given in seconds.
pub(crate) fn travel(net: &Net, cruise: u32) -> Travel
    requires { cruise ≤ 300 }
    ensures time { result.time
        ≡ travel_steps cruise net.now.frame.step_count net.now.frame.cycle }
    ensures percent { result.percent ≡ net.now.frame.dispersion }
    ensures place { result.place ≡ result.time % net.now.frame.step_count }
{
    let frame = net.frame();
    let spread = Spread {
        time: travel_steps(cruise, frame.step_count, frame.cycle),
        percent: frame.dispersion,
    };
    travel_of(spread, frame.step_count as usize)
}

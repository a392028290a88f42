//! The factors of a feed, worked out anew where those that are kept are not the feed's.

ghost use Rattle.std.specs.Prelude.{IsTrue};
ghost use Rattle.transyt_sweep.specs.Inflow.{AreFactors, Served};

use crate::factors::{Factors, travel};
use crate::source::Source;
use transyt_profile::part_of;

impl Source<'_> {
    /// Its factors.
    fn factors(&self) -> Factors
        ensures { Served self.now.net.now self.now.feed result }
    {
        Factors {
            feeder: self.feeder,
            cruise: self.feed.cruise,
            cycle: self.net.frame().cycle,
            part: part_of(self.feed.flow, self.whole),
            travel: travel(self.net, self.feed.cruise),
        }
    }

    /// Whether the numbers that factors name are its own, and the place its feeder's.
    fn is_served(&self, factors: &Factors) -> bool
        ensures { IsTrue result → AreFactors self.now.net.now.frame.step_count factors.now
            → Served self.now.net.now self.now.feed factors.now }
    {
        let frame = self.net.frame();
        factors.feeder == self.feeder
            && factors.part.part == self.feed.flow
            && factors.part.whole == self.whole
            && factors.cruise == self.feed.cruise
            && factors.cycle == frame.cycle
            && factors.travel.percent == frame.dispersion
    }

    /// Works the factors that are kept in `slot` out anew, where they are not its own.
    pub(crate) fn renew(&self, slot: &mut Factors)
        requires { AreFactors self.now.net.now.frame.step_count slot.old }
        ensures { Served self.now.net.now self.now.feed slot.new }
    {
        if !self.is_served(slot) {
            *slot = self.factors();
        }
    }
}

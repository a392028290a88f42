//! Cycle times.

ghost use Rattle.std.specs.Prelude.{◌≡◌, ◌≤◌};
ghost use Rattle.transyt_variants.specs.Cycles.{is_whole, steps_of};

use transyt_net::Net;

/// A cycle time, 30 to 240 seconds.
#[derive(Clone, Copy)]
pub(crate) struct CycleTime {
    /// The cycle time in seconds.
    pub(crate) seconds: u32,
    ghost low: { 30 ≤ seconds },
    ghost high: { seconds ≤ 240 },
}

impl CycleTime {
    /// How many of a network's steps it has, rounded down.
    pub(crate) fn steps_of(self, net: &Net) -> u32
        ensures { result ≡ steps_of net.now self.seconds }
    {
        net.frame().step_count * self.seconds / net.frame().cycle
    }

    /// Whether it is a whole number of a network's steps.
    pub(crate) fn is_whole(self, net: &Net) -> bool
        ensures { result ≡ is_whole net.now self.seconds }
    {
        net.frame().step_count * self.seconds % net.frame().cycle == 0
    }
}

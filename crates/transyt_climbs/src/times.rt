//! Cycle times by a step.

ghost use Rattle.std.specs.Prelude.{◌≡◌, ◌<◌, ◌≤◌, IfSome};
ghost use Rattle.transyt_climbs.specs.Times.{AreTimes, cycle_at, cycle_count, times_within};

/// Cycle times from `low` to `high` by the step `by`, all in seconds.
#[derive(Clone, Copy, Drop)]
pub struct CycleTimes {
    /// The lowest, at least 30.
    pub low: u32,
    /// The highest that there may be, at most 240.
    pub high: u32,
    /// From each to the next, 1 to 210.
    pub by: u32,
}

impl CycleTimes {
    /// The cycle times from `low` to `high` by the step `by`; none where a number is out of its range, or the lowest is
    /// above the highest.
    pub fn new(low: u32, high: u32, by: u32) -> Option<CycleTimes>
        ensures value { result ≡ times_within low high by }
        ensures within { IfSome result AreTimes }
    {
        let fits = 30 <= low && low <= high && high <= 240 && 1 <= by && by <= 210;
        if !fits {
            return None;
        }
        Some(CycleTimes { low, high, by })
    }

    /// How many cycle times there are, 1 to 211.
    pub fn count(self) -> usize
        requires { AreTimes self }
        ensures count { result ≡ cycle_count self }
        ensures few { result ≤ 211 }
    {
        ((self.high - self.low) / self.by + 1) as usize
    }

    /// The cycle time at a place from 0, in seconds.
    pub fn at(self, place: usize) -> u32
        requires times { AreTimes self }
        requires place { place < cycle_count self }
        ensures value { result ≡ cycle_at self place }
        ensures short { 30 ≤ result }
        ensures long { result ≤ 240 }
    {
        self.low + place as u32 * self.by
    }
}

//! The cycle times and workers that the word asks for.

ghost use Rattle.std.specs.Prelude.{◌≡◌, IfSome};
ghost use Rattle.transyt_climbs.specs.Scan.{IsScan, scan_of};

use crate::times::CycleTimes;

/// Climbs over cycle times, with so many workers.
#[derive(Clone, Copy, Drop)]
pub struct ScanWord {
    /// How many workers climb, 1 to 8.
    pub workers: u32,
    /// The cycle times that are climbed at.
    pub times: CycleTimes,
}

impl ScanWord {
    /// Climbs with so many workers over the cycle times from `low` to `high` by the step `by`; none where a number is
    /// out of its range, or the lowest is above the highest.
    pub fn new(workers: u32, low: u32, high: u32, by: u32) -> Option<ScanWord>
        ensures value { result ≡ scan_of workers low high by }
        ensures within { IfSome result IsScan }
    {
        if workers < 1 || workers > 8 {
            return None;
        }
        let times = CycleTimes::new(low, high, by)?;
        Some(ScanWord { workers, times })
    }
}

//! The rows of a link at a sweep, as they are worked out.

ghost use Rattle.std.specs.Prelude.{◌≡◌, ◌^◌, ◌<◌, ◌≤◌, length, All, IfOk};

use std::alloc::{AllocError, Global};
use transyt_net::Net;

/// The rows of one link at one sweep, in millionths of a vehicle: each has a value for each step of the cycle.
pub(crate) struct CellRows {
    /// The arrivals in each step, before any cut.
    pub(crate) arrivals: Vec<u64>,
    /// The GO of each step.
    pub(crate) go: Vec<u64>,
    /// The arrivals after the cut, where anything is cut.
    pub(crate) cut: Vec<u64>,
    /// The queue at the end of each step.
    pub(crate) queue: Vec<u64>,
    /// The departures in each step.
    pub(crate) departures: Vec<u64>,
    ghost some: { 0 < length arrivals.items },
    ghost most: { length arrivals.items ≤ 120 },
    ghost go_len: { length go.items ≡ length arrivals.items },
    ghost cut_len: { length cut.items ≡ length arrivals.items },
    ghost queue_len: { length queue.items ≡ length arrivals.items },
    ghost departures_len: { length departures.items ≡ length arrivals.items },
    ghost arrivals_small: { All (λ v. v < 2 ^ 48) arrivals.items },
    ghost go_small: { All (λ v. v < 2 ^ 30) go.items },
    ghost queue_small: { All (λ v. v < 2 ^ 37) queue.items },
    ghost departures_small: { All (λ v. v < 2 ^ 30) departures.items },
}

impl Drop for CellRows {
    // Written out: a derived one is proved again in each crate that lets a value go.
    fn drop(self) {
        let CellRows {
            arrivals: _,
            go: _,
            cut: _,
            queue: _,
            departures: _,
        } = self;
    }
}

impl CellRows {
    /// Rows for the network's steps in which all is 0.
    pub(crate) fn empty(alloc: Global, net: &Net) -> Result<CellRows, AllocError>
        ensures { IfOk result (λ rows. length rows.arrivals.items ≡ net.now.frame.step_count) }
    {
        let step_count = net.frame().step_count as usize;
        let arrivals = vec![in alloc; 0; step_count]?;
        let go = vec![in alloc; 0; step_count]?;
        let cut = vec![in alloc; 0; step_count]?;
        let queue = vec![in alloc; 0; step_count]?;
        let departures = vec![in alloc; 0; step_count]?;
        Ok(CellRows {
            arrivals,
            go,
            cut,
            queue,
            departures,
        })
    }
}

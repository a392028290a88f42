//! A gate for as many desks as there are processors.

ghost use Rattle.std.specs.Prelude.{◌≤◌};

use std::thread::{Threads, available_parallelism};
use transyt_desks::Gate;

/// A gate that lets in as many desks at once as there are processors for this program: more would wait for one another.
#[derive(Drop)]
pub(crate) struct HostGate<'a, R> {
    /// The runtime whose threads the desks use.
    pub(crate) rt: &'a R,
}

impl<'a, R: Threads + Sync> Gate for HostGate<'a, R> {
    fn enter(&self, _desk: u32) {}

    fn leave(&self, _desk: u32) {}

    /// The processors that the system tells of, and eight at most; eight where it tells of none.
    fn most(&self) -> u32 {
        match available_parallelism(self.rt) {
            Ok(count) => count.get().min(8) as u32,
            Err(_) => 8,
        }
    }
}

//! A gate that the climb of each network passes.

/// A gate is told when the climb of a network begins, and when it is done, by the number of its row.
///
/// Several climbs may be inside at once, so a gate is shared among threads. A clause names nothing of it.
pub trait ClimbGate: Sync {
    /// The climb begins.
    fn enter(&self, number: u32);

    /// The climb is done.
    fn leave(&self, number: u32);
}

/// A gate that does nothing.
#[derive(Clone, Copy)]
pub struct IdleGate;

impl ClimbGate for IdleGate {
    fn enter(&self, _number: u32) {}

    fn leave(&self, _number: u32) {}
}

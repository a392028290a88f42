//! The two sums of a cycle that say whether anything is cut.

ghost use Rattle.std.specs.Prelude.{◌<◌, ◌↔◌, IsTrue};

/// The arrivals at a stop line in a cycle and its GO, in millionths of a vehicle.
#[derive(Clone, Copy)]
pub struct Totals {
    /// The arrivals, before any cut.
    pub arrivals: u64,
    /// GO of a cycle.
    pub go: u64,
}

impl Totals {
    /// Whether more comes than the green lets pass: then less reaches the stop line than comes.
    pub fn more_comes(self) -> bool
        ensures { IsTrue result ↔ self.go < self.arrivals }
    {
        self.go < self.arrivals
    }
}

//! The row of a climb at a cycle time.

/// A climb at one cycle time.
#[derive(Clone, Copy, Debug, PartialEq, Eq, Drop)]
pub struct ScanRow {
    /// The cycle time, in seconds.
    pub cycle: u32,
    /// The index before the climb.
    pub from: u128,
    /// How many steps were taken.
    pub took: u32,
    /// Whether the climb ended LOCAL, and not BUDGET.
    pub local: bool,
    /// How many places were looked at.
    pub looked: u32,
    /// The index after the climb.
    pub to: u128,
}

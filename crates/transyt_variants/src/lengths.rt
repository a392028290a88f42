//! The lengths of the old cycle and of the new one.

ghost use Rattle.std.specs.Prelude.{◌<◌, ◌≤◌};

/// How many steps a network's cycle has before and after it gets another cycle time.
#[derive(Clone, Copy)]
pub(crate) struct Lengths {
    /// The steps of the old cycle.
    pub(crate) before: u32,
    /// The steps of the new cycle.
    pub(crate) after: u32,
    ghost before_most: { before ≤ 120 },
    ghost after_some: { 0 < after },
    ghost after_most: { after ≤ 120 },
}

//! The nodes whose moves a climb tries, and their moves by one size.

ghost use Rattle.std.specs.Prelude.{◌<◌, ◌≤◌, length, All};
ghost use Rattle.transyt_parts.specs.Valid.{IsNode};

use transyt_net::Node;

/// The nodes of a network in card order, with the number of steps of its cycle.
#[derive(Clone, Copy)]
pub(crate) struct Nodes<'a> {
    /// The steps of the cycle.
    pub(crate) step_count: u32,
    /// The nodes.
    pub(crate) list: &'a [Node],
    ghost some_steps: { 0 < step_count },
    ghost few_steps: { step_count ≤ 120 },
    ghost few: { length list.now ≤ 200 },
    ghost kept: { All (IsNode step_count) list.now },
}

/// The moves of these nodes by one size, in steps.
#[derive(Clone, Copy)]
pub(crate) struct SizeMoves<'a> {
    /// The nodes.
    pub(crate) nodes: Nodes<'a>,
    /// The size.
    pub(crate) size: u32,
    ghost within: { size < nodes.step_count },
}

//! A link of a network, and the signals at its stop line.

ghost use Rattle.std.specs.Prelude.{◌<◌, ◌≤◌, length};
ghost use Rattle.transyt_parts.specs.Valid.{IsNode};

use transyt_net::{Net, Node};

/// A link that a network has.
#[derive(Clone, Copy)]
pub(crate) struct NetLink<'a> {
    /// The network.
    pub(crate) net: &'a Net,
    /// The link's place, from 0 in card order.
    pub(crate) place: usize,
    ghost within: { place < length net.now.links },
}

/// The signals of a link: the plan of its node, and the stages in which it runs.
#[derive(Clone, Copy)]
pub(crate) struct Signals<'a> {
    /// The steps of the cycle.
    pub(crate) step_count: u32,
    /// The node.
    pub(crate) node: &'a Node,
    /// The stages in which the link runs, each from 1.
    pub(crate) stages: &'a [u32],
    ghost some: { 0 < step_count },
    ghost most: { step_count ≤ 120 },
    ghost kept: { IsNode step_count node.now },
}

/// The steps of a stage at which it shows a link, counted from its change, in a cycle.
#[derive(Clone, Copy)]
pub(crate) struct Span {
    /// The steps of the cycle.
    pub(crate) step_count: u32,
    /// The step of the change, which may lie past the cycle.
    pub(crate) change: u32,
    /// The first of them.
    pub(crate) from: u32,
    /// The one after the last.
    pub(crate) to: u32,
    ghost some: { 0 < step_count },
    ghost most: { step_count ≤ 120 },
    ghost change_most: { change ≤ 240 },
    ghost from_most: { from ≤ step_count },
    ghost to_most: { to ≤ step_count },
}

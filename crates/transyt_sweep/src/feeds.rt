//! The feeds of the link of a cell, and the factors by which they are worked out side by side.

ghost use Rattle.std.specs.Prelude.{◌≤◌, length, All};
ghost use Rattle.transyt_sweep.specs.Inflow.{AreSendable, IsGroup, IsSmall};

use crate::factors::Factors;
use crate::inputs::Inputs;
use transyt_net::Feed;

/// A feed of the link of a cell.
#[derive(Clone, Copy)]
pub(crate) struct OneFeed<'a> {
    /// The inputs of the cell.
    pub(crate) inputs: &'a Inputs<'a>,
    /// The feed.
    pub(crate) feed: Feed,
    ghost small: { IsSmall feed },
}

/// Some feeds of the link of a cell, in order.
#[derive(Clone, Copy)]
pub(crate) struct Feeds<'a> {
    /// The inputs of the cell.
    pub(crate) inputs: &'a Inputs<'a>,
    /// The feeds.
    pub(crate) list: &'a [Feed],
    ghost small: { All IsSmall list.now },
    ghost few: { length list.now ≤ 8 },
}

/// The factors of three feeds or of four, which can be sent side by side.
#[derive(Clone, Copy)]
pub(crate) struct Sendable<'a> {
    /// The inputs of the cell.
    pub(crate) inputs: &'a Inputs<'a>,
    /// The factors, in the order of the feeds.
    pub(crate) slots: &'a [Factors],
    ghost group: { IsGroup (length slots.now) },
    ghost are: { All (AreSendable inputs.now) slots.now },
}

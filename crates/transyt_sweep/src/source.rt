//! A feed of a network, with its feeder.

ghost use Rattle.std.specs.Prelude.{◌≡◌, ◌<◌, length};
ghost use Rattle.transyt_parts.specs.Parts.{total_flow};
ghost use Rattle.transyt_net.specs.Parts.{link_of};
ghost use Rattle.transyt_net.specs.Valid.{link_place};
ghost use Rattle.transyt_sweep.specs.Inflow.{IsSmall};

use transyt_net::{Feed, Net};

/// A feed of a network, with its feeder.
#[derive(Clone, Copy)]
pub(crate) struct Source<'a> {
    /// The network.
    pub(crate) net: &'a Net,
    /// The feed.
    pub(crate) feed: Feed,
    /// The place of its feeder.
    pub(crate) feeder: usize,
    /// The total flow of its feeder, in vehicles per hour.
    pub(crate) whole: u32,
    ghost small: { IsSmall feed },
    ghost within: { feeder < length net.now.links },
    ghost is_feeder: { feeder ≡ link_place net.now feed.feeder },
    ghost is_whole: { whole ≡ total_flow (link_of net.now feeder) },
}

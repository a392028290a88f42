//! The greens of one node.

ghost use Rattle.std.specs.Prelude.{◌≤◌, length, All};
ghost use Rattle.transyt_equisat.specs.Sharing.{AreWithin};

use transyt_net::Net;

/// The greens of the stages of one node.
///
/// Each link that counts at the node runs in one of these stages, and no green is longer than the longest cycle.
#[derive(Clone, Copy)]
pub(crate) struct NodeGreens<'a> {
    /// The network.
    pub(crate) net: &'a Net,
    /// The card number of the node.
    pub(crate) number: u32,
    /// A green for each stage, in steps.
    pub(crate) greens: &'a [u32],
    ghost within: { AreWithin number (length greens.now) net.now.links },
    ghost small: { All (λ e. e ≤ 120) greens.now },
}

//! A node of a network, with what its links ask.

ghost use Rattle.std.specs.Prelude.{◌≡◌, ◌<◌, length};
ghost use Rattle.transyt_net.specs.Parts.{node_of};
ghost use Rattle.transyt_equisat.specs.Sharing.{asked_of};

use crate::asked::Asked;
use transyt_net::Net;

/// A node of a network, with the demands of its stages.
#[derive(Clone, Copy)]
pub(crate) struct NodeDemand<'a, 'b> {
    /// The network.
    pub(crate) net: &'a Net,
    /// The place of the node, in card order from 0.
    pub(crate) node: usize,
    /// The demands of its stages.
    pub(crate) asked: &'a Asked<'b>,
    ghost inside: { node < length net.now.nodes },
    ghost theirs: { asked.now ≡ asked_of net.now (node_of net.now node) },
}

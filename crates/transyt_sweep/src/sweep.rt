//! A sweep of a network.

ghost use Rattle.std.specs.Prelude.{◌≤◌};

use transyt_net::Net;

/// A sweep of a network after the start.
#[derive(Clone, Copy)]
pub(crate) struct Sweep<'a> {
    /// The network.
    pub(crate) net: &'a Net,
    /// The number of the sweep, from 1.
    pub(crate) number: u32,
    ghost first: { 1 ≤ number },
    ghost last: { number ≤ net.now.frame.sweeps },
}

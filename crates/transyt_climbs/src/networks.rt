//! The networks that a word asks for.

ghost use Rattle.std.specs.Prelude.{◌≡◌, ◌<◌, ◌≤◌, IfOk};
ghost use Rattle.transyt_net.specs.Parts.{Network};
ghost use Rattle.transyt_climbs.specs.Climbs.{NetworkListValue};

use std::alloc::{AllocError, Global};
use transyt_net::Net;

/// A network to climb on, or why there is none.
#[derive(Drop)]
pub enum NetworkAt {
    /// The network.
    Plan(Net),
    /// The intergreens and least greens of the node with this number don't fit into the cycle.
    Barred { node: u32 },
    /// There is no such network.
    NoPlan,
}

/// The question: networks made out of a deck's, by their places from 0, and how many workers climb.
pub trait NetworkList: Sync {
    /// How many networks there are, the number of each row, and the network at each place.
    ghost list: { Self → NetworkListValue };

    /// What each row is of, as a person reads it.
    fn noun(&self) -> &'static str;

    /// How many workers climb.
    fn workers(&self) -> usize
        ensures some { 0 < result }
        ensures few { result ≤ 8 };

    /// How many networks there are.
    fn count(&self) -> usize
        ensures count { result ≡ (list self.now).count }
        ensures few { result ≤ 1000 };

    /// The number of the row at a place.
    fn number(&self, place: usize) -> u32
        requires { place < (list self.now).count }
        ensures { result ≡ (list self.now).number place };

    /// The network at a place, made out of a deck's.
    fn network(&self, alloc: Global, net: &Net, place: usize) -> Result<NetworkAt, AllocError>
        requires { place < (list self.now).count }
        ensures { IfOk result (λ made. made ≡ (list self.now).network net.now place) };
}

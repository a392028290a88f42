//! The networks to climb on, as they are handed to all workers, and a batch of them.

ghost use Rattle.std.specs.Prelude.{◌≤◌, ◌+◌};

use crate::deal::Deal;
use crate::networks::NetworkList;
use std::alloc::Global;
use transyt_net::Net;

/// The networks that are climbed on, made out of one network, each with memory of its own, and the gate.
#[derive(Drop)]
pub struct Work<'a, P, B> {
    /// Where memory comes from.
    pub alloc: Global,
    /// The networks that are asked for.
    pub asked: &'a P,
    /// The network that they are made out of.
    pub net: &'a Net,
    /// The gate that each climb passes.
    pub gate: &'a B,
}

/// A batch of them: those of so many places from one on, dealt to the workers.
#[derive(Drop)]
pub(crate) struct Batch<'a, P: NetworkList, B> {
    /// The networks.
    pub(crate) work: &'a Work<'a, P, B>,
    /// The first place of the batch.
    pub(crate) first: usize,
    /// Who climbs on which of them; the places are counted from the first.
    pub(crate) deal: Deal,
    ghost within: { first + deal.count ≤ (P.list work.now.asked.now).count },
    ghost most: { first + deal.count ≤ 1000 },
}

//! The networks that are climbed on at cycle times.

ghost use Rattle.transyt_climbs.specs.Scan.{IsScan};

use crate::networks::{NetworkAt, NetworkList};
use crate::scan_word::ScanWord;
use std::alloc::{AllocError, Global};
use transyt_net::Net;

/// Cycle times and workers that may be asked for; each network has its cycle time, and all else of the deck's.
#[derive(Clone, Copy, Drop)]
pub struct ScanList {
    /// The cycle times, and how many workers climb.
    pub asked: ScanWord,
    ghost within: { IsScan asked },
}

impl NetworkList for ScanList {
    ghost use Rattle.transyt_climbs.specs.Scan.{listed};

    ghost list = { λ self. listed self.asked.times };

    fn noun(&self) -> &'static str {
        "cycle time"
    }

    fn workers(&self) -> usize {
        self.asked.workers as usize
    }

    fn count(&self) -> usize {
        self.asked.times.count()
    }

    fn number(&self, place: usize) -> u32 {
        self.asked.times.at(place)
    }

    fn network(&self, alloc: Global, net: &Net, place: usize) -> Result<NetworkAt, AllocError> {
        let net = net.with_cycle(alloc, self.asked.times.at(place))?;
        Ok(NetworkAt::Plan(net))
    }
}

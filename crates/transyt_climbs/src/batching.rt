//! The batches of a run.

ghost use Rattle.std.specs.Prelude.{◌≡◌, ◌<◌};

use crate::deal::Deal;
use crate::networks::NetworkList;
use crate::work::{Batch, Work};

/// How many climbs a run has at least that is told how far it is, and so has more than one batch.
pub(crate) const FEWEST_CLIMBS: usize = 4;

/// How many batches the run of one worker has at most.
const MOST_BATCHES: usize = 50;

/// How many batches the run of several workers has at most: they wait for the slowest at the end of each.
const MOST_JOINS: usize = 12;

/// How many climbs of each worker a batch has at least where several climb, unless half of them all are fewer: over so
/// many long and short ones even out.
const FEWEST_TURNS: usize = 24;

/// So many climbs of each worker and fewer stand in one batch: in two they wouldn't even out.
const ONE_BATCH: usize = 3;

impl Deal {
    /// How many places each batch has where these are dealt batch by batch, the last perhaps fewer.
    fn batch_size(self) -> usize
        ensures { 0 < result }
    {
        if self.count < FEWEST_CLIMBS {
            return FEWEST_CLIMBS;
        }
        let turns = if self.workers == 1 {
            self.turns.div_ceil(MOST_BATCHES)
        } else if self.turns <= ONE_BATCH {
            self.turns
        } else {
            let few = FEWEST_TURNS.min(self.turns.div_ceil(2));
            self.turns.div_ceil(MOST_JOINS).max(few)
        };
        self.workers * turns.max(1)
    }
}

impl<'a, P: NetworkList, B> Batch<'a, P, B> {
    /// The batch that begins with a place.
    pub(crate) fn from(work: &'a Work<'a, P, B>, first: usize) -> Batch<'a, P, B>
        requires { first < (P.list work.now.asked.now).count }
        ensures work { result.work.now ≡ work.now }
        ensures first { result.first ≡ first }
        ensures some { 0 < result.deal.count }
    {
        let (count, workers) = (work.asked.count(), work.asked.workers());
        let size = Deal::new(count, workers).batch_size().min(count - first);
        Batch {
            work,
            first,
            deal: Deal::new(size, workers),
        }
    }
}

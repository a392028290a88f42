//! How the places of a batch are dealt.

ghost use Rattle.std.specs.Prelude.{◌≡◌, ◌<◌, ◌≤◌, ◌*◌};
ghost use Rattle.transyt_climbs.specs.Deals.{mirrored, place_at, slot_of};

use crate::deal::Deal;

/// The worker of a number within a turn, or the number of a worker: the same in even turns, counted from the other end in
/// odd ones.
fn mirrored(turn: usize, worker: usize, workers: usize) -> usize
    requires { worker < workers }
    ensures value { result ≡ mirrored turn worker workers }
    ensures within { result < workers }
{
    if turn % 2 == 0 {
        worker
    } else {
        workers - 1 - worker
    }
}

impl Deal {
    /// So many places dealt to so many workers.
    #[tactic(auto, using(std::proofs::lemmas::Grind::div_ceil_times))]
    pub(crate) fn new(count: usize, workers: usize) -> Deal
        requires some { 0 < workers }
        requires few { workers ≤ 8 }
        requires count_most { count ≤ 1000 }
        ensures { result.count ≡ count }
    {
        Deal {
            count,
            workers,
            turns: count.div_ceil(workers),
        }
    }

    /// The place in a slot, from 0, if there is one.
    pub(crate) fn place_at(self, slot: usize) -> Option<usize>
        requires { slot < self.workers * self.turns }
        ensures { result ≡ place_at self slot }
    {
        let turn = slot % self.turns;
        let number = turn * self.workers + mirrored(turn, slot / self.turns, self.workers);
        if number < self.count {
            Some(self.count - 1 - number)
        } else {
            None
        }
    }

    /// The slot of a place.
    pub(crate) fn slot_of(self, place: usize) -> usize
        requires { place < self.count }
        ensures slot { result ≡ slot_of self place }
        ensures within { result < self.workers * self.turns }
    {
        let number = self.count - 1 - place;
        let turn = number / self.workers;
        mirrored(turn, number % self.workers, self.workers) * self.turns + turn
    }
}

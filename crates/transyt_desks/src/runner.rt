//! What several desks need to try moves at once, and how they try them.

ghost use Rattle.std.specs.Thread.{IsSync};
ghost use Rattle.std.specs.Prelude.{◌≡◌, ◌<◌, ◌≤◌, length, take, drop, None, All};
ghost use Rattle.transyt_moves.specs.Moves.{move_count};
ghost use Rattle.transyt_sweep.specs.Sweeps.{index};
ghost use Rattle.transyt_desks.specs.Desks.{sessions_of};
ghost use Rattle.transyt_desks.specs.Stretches.{HasTried, HaveTried};
ghost use Rattle.transyt_desks.specs.Batches.{CanAllFollow, CanFollow, HasTriedBatch};

use crate::batch::Batch;
use crate::desk::Desk;
use crate::gate::Gate;
use crate::job::{Attempt, Job};
use crate::stretch::Stretch;
use crate::trying::{first_made, try_moves_at_gate};
use std::snapshot::Snapshot;
use std::thread::{self, Threads};
use transyt_session::Session;

/// The runtime, whose threads the desks use, and the gate that they pass.
#[derive(Drop)]
pub(crate) struct Runner<'a, R, G> {
    pub(crate) rt: &'a R,
    pub(crate) gate: &'a G,
}

impl<R: Threads + Sync, G: Gate> Runner<'_, R, G> {
    /// Lets all desks of a crew come to the network of desk 0 and try the moves of a job, which come to them in turn, at
    /// once: the first in this thread, each other in a new one.
    ///
    /// This thread makes all the others before it tries a move itself: a thread that is made by one which then works on
    /// mostly gets the same processor, and waits there until the other is done.
    #[cycle(forks)]
    pub(crate) fn try_moves_forked(&self, desks: &mut [Desk], job: Job<'_>)
        requires few { length desks.old ≤ 8 }
        requires ready { All (λ d. CanFollow job.zero.now.net job.batch.known d.session) desks.old }
        ensures { HaveTried job.entry.zero.now.net job.entry.batch desks.old desks.new }
    {
        if desks.is_empty() {
            return;
        }
        let number = desks.len() - 1;
        let (front, last) = desks.split_at_mut(number);
        if front.is_empty() {
            try_moves_at_gate(self.gate, &mut last[0], Attempt { job, desk: 0 });
        } else {
            self.try_moves_on_both(front, &mut last[0], job);
        }
    }

    /// Does so with the last desk in a new thread, and with the desks before it from this thread.
    #[cycle(forks)]
    fn try_moves_on_both(&self, front: &mut [Desk], last: &mut Desk, job: Job<'_>)
        requires few { length front.old < 8 }
        requires ready { All (λ d. CanFollow job.zero.now.net job.batch.known d.session) front.old }
        requires last_ready { CanFollow job.zero.now.net job.batch.known last.old.session }
        ensures front { HaveTried job.entry.zero.now.net job.entry.batch front.old front.new }
        ensures last { HasTried job.entry.zero.now.net job.entry.batch (length front.old)
            last.old last.new }
    {
        let attempt = Attempt {
            job,
            desk: front.len() as u32,
        };
        let mut there = ||
            requires { IsSync G.row
                × CanFollow attempt.job.zero.now.net attempt.job.batch.known last.now.session }
            ensures { HasTried attempt.entry.job.zero.now.net attempt.entry.job.batch
                attempt.entry.desk last.entry.now last.exit.now }
        { try_moves_at_gate(self.gate, last, attempt) };
        let mut here = ||
            requires { IsSync R.row × IsSync G.row × (length front.now ≤ 8)
                × All (λ d. CanFollow job.zero.now.net job.batch.known d.session) front.now }
            ensures { HaveTried job.entry.zero.now.net job.entry.batch front.entry.now front.exit.now }
        { self.try_moves_forked(front, job) };
        thread::join_mut(self.rt, &mut there, &mut here);
    }

    /// Tries the moves of a batch at the first of a crew, as many as it names, all at once, and gives them as a stretch,
    /// up to the first that lowers the index. Desk 0 trades networks with the desk that has made it. The others of the
    /// crew stay as they are.
    pub(crate) fn try_stretch(
        &self,
        zero: &mut Session,
        desks: &mut [Desk],
        batch: Batch,
    ) -> Stretch
        requires within { batch.desks ≤ length desks.old }
        requires closed { zero.old.before ≡ None }
        requires ready { CanAllFollow zero.old.net batch.known
            (take batch.desks (sessions_of desks.old)) }
        requires count { batch.count ≡ move_count zero.old.net }
        requires bound { batch.bound ≡ index zero.old.net }
        ensures workers { length desks.new ≡ length desks.old }
        ensures has_tried { HasTriedBatch batch zero.old zero.new
            (take batch.desks (sessions_of desks.new)) result }
        ensures others { drop batch.desks (sessions_of desks.new)
            ≡ drop batch.desks (sessions_of desks.old) }
    {
        let net = Snapshot::of(zero.net());
        let (front, _) = desks.split_at_mut(batch.desks as usize);
        self.try_moves_forked(front, Job { zero, batch });
        let stretch = first_made(front, batch, &net);
        if stretch.made.is_none() {
            return stretch;
        }
        let desk = (stretch.passed % batch.desks) as usize;
        zero.trade(&mut front[desk].session);
        stretch
    }
}

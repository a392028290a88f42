//! What desks are asked to try.

ghost use Rattle.std.specs.Prelude.{◌≡◌, ◌+◌, ◌*◌, ◌<◌, ◌≤◌, None, IfSome};
ghost use Rattle.transyt_moves.specs.Moves.{move_count};
ghost use Rattle.transyt_desks.specs.Stretches.{turn_place};

use crate::batch::Batch;
use transyt_session::Session;

/// Moves of desk 0's network that desks are asked to try. Each of them comes to that network first.
#[derive(Clone, Copy)]
pub(crate) struct Job<'a> {
    /// The session of desk 0.
    pub(crate) zero: &'a Session,
    /// The moves of its list.
    pub(crate) batch: Batch,
    ghost count: { batch.count ≡ move_count zero.now.net },
}

/// One desk's part of a job: the moves that come to it in turn.
#[derive(Clone, Copy)]
pub(crate) struct Attempt<'a> {
    /// The job.
    pub(crate) job: Job<'a>,
    /// The desk, from 0.
    pub(crate) desk: u32,
    ghost few: { desk < 8 },
}

impl Attempt<'_> {
    /// The place of the desk's move at a turn, from 0; none after its last move.
    pub(crate) fn place(self, turn: u32) -> Option<u32>
        ensures value { IfSome result
            (λ place. place ≡ turn_place self.entry.job.batch self.entry.desk turn) }
        ensures below { IfSome result (λ place. place < self.entry.job.batch.count) }
        ensures some { IfSome result
            (λ _. self.entry.desk + turn * self.entry.job.batch.desks < self.entry.job.batch.room) }
        ensures none { result ≡ None
            → self.entry.job.batch.room ≤ self.entry.desk + turn * self.entry.job.batch.desks }
    {
        let batch = self.job.batch;
        let number = u64::from(self.desk) + u64::from(turn) * u64::from(batch.desks);
        if number >= u64::from(batch.room) {
            return None;
        }
        Some(((u64::from(batch.place) + number) % u64::from(batch.count)) as u32)
    }
}

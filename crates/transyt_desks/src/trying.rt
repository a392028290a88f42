//! The moves that one desk tries, and what those of several come to.

ghost use Rattle.std.specs.Prelude.{◌≡◌, ◌≢◌, ◌+◌, ◌≤◌, length, None};
ghost use Rattle.transyt_moves.specs.Moves.{move_count};
ghost use Rattle.transyt_sweep.specs.Sweeps.{index};
ghost use Rattle.transyt_track.specs.Due.{cert_work};
ghost use Rattle.transyt_session.specs.Session.{standing_for};
ghost use Rattle.transyt_desks.specs.Stretches.{AreResults, AreTried, AreTriesOf, HasTried, IsStretch, MadeAt, net_made};
ghost use Rattle.transyt_desks.specs.Batches.{CanFollow};

use crate::batch::Batch;
use crate::desk::{Desk, follow};
use crate::gate::Gate;
use crate::job::{Attempt, Job};
use crate::results::TryResults;
use crate::stretch::{Stretch, try_at, work_found};
use std::snapshot::Snapshot;
use std::sync::ledger::Ledger;
use transyt_moves::{move_at, move_count};
use transyt_net::Net;
use transyt_session::{Session, Tried};
use transyt_steps::Steps;

/// Tries the moves of an attempt one after another, up to the first that brings the index below the bound, which it
/// makes.
fn try_moves_on_desk(session: &mut Session, attempt: Attempt<'_>) -> TryResults
    requires net { session.old.net ≡ attempt.job.zero.now.net }
    requires closed { session.old.before ≡ None }
    ensures results { AreResults session.old.net attempt.entry.job.batch attempt.entry.desk result }
    ensures state { session.new ≡ standing_for (net_made result.made session.old.net) session.old }
{
    let mut results = TryResults::none();
    for turn in 0..64u32 {
        let Some(place) = attempt.place(turn) else {
            return results;
        };
        let (found, made) = try_at(session, place, attempt.job.batch.bound);
        results.made = made;
        if made.is_some() {
            return results;
        }
        results.tries[turn as usize] = found;
        results.passed = turn + 1;
    }
    results
}

/// Lets a desk come to the network of desk 0, and make its attempt between entering and leaving the gate.
pub(crate) fn try_moves_at_gate<G: Gate>(gate: &G, desk: &mut Desk, attempt: Attempt<'_>)
    requires ready { CanFollow attempt.job.zero.now.net attempt.job.batch.known desk.old.session }
    ensures { HasTried attempt.entry.job.zero.now.net attempt.entry.job.batch attempt.entry.desk
        desk.old desk.new }
{
    follow(&mut desk.session, attempt.job.zero, attempt.job.batch.known);
    gate.enter(attempt.desk);
    desk.results = try_moves_on_desk(&mut desk.session, attempt);
    gate.leave(attempt.desk);
}

/// The moves of a batch as a stretch, up to the first in the list's order that lowers the index, which its desk has made.
pub(crate) fn first_made(desks: &[Desk], batch: Batch, net: &Snapshot<Net>) -> Stretch
    requires bound { batch.bound ≡ index net.now.value }
    requires found { AreTried net.now.value batch desks.now }
    ensures stretch { IsStretch net.now.value batch.place batch.count batch.room result }
    ensures desk { result.made ≢ None → MadeAt batch desks.now result }
{
    let mut stretch = Stretch::none();
    for number in 0..batch.room {
        let results = &desks[(number % batch.desks) as usize].results;
        let turn = number / batch.desks;
        if turn >= results.passed {
            return Stretch {
                made: results.made,
                ..stretch
            };
        }
        stretch.passed += 1;
        stretch.work += work_found(results.tries[turn as usize]);
    }
    stretch
}

/// Hands on the results in the list's order.
pub(crate) fn hand_on(desks: &[Desk], job: Job<'_>, tries: &mut [Tried])
    requires bound { job.batch.bound ≡ 0 }
    requires inside { job.batch.place + job.batch.room ≤ job.batch.count }
    requires room { job.batch.room ≡ length tries.old }
    requires found { AreTried job.zero.now.net job.batch desks.now }
    ensures len { length tries.new ≡ length tries.old }
    ensures tries { AreTriesOf job.entry.zero.now.net job.entry.batch.place (length tries.old)
        tries.new }
{
    let batch = job.batch;
    for number in 0..tries.len() {
        let desk = number % batch.desks as usize;
        let turn = number / batch.desks as usize;
        tries[number] = desks[desk].results.tries[turn];
    }
}

/// Tries consecutive moves of a session's network from a place on, one after another, in as many steps as they have work.
pub(crate) fn try_moves_alone<L: Ledger>(
    session: &mut Session,
    from: u32,
    tries: &mut [Tried],
    steps: &mut Steps<L>,
)
    requires closed { session.old.before ≡ None }
    requires places { from + length tries.old ≤ move_count session.old.net }
    ensures same { session.new ≡ session.old }
    ensures len { length tries.new ≡ length tries.old }
    ensures tried { AreTriesOf session.old.net from (length tries.old) tries.new }
    ensures steps { steps.new + cert_work session.old.net from
        ≡ steps.old + cert_work session.old.net (from + length tries.old) }
{
    let _ = move_count(session.net());
    for number in 0..tries.len() {
        let edit = move_at(session.net(), from + number as u32);
        tries[number] = session.try_edit(edit, steps);
    }
}

//! Moves of the list, one after another, up to the first that lowers the index.

ghost use Rattle.std.specs.Prelude.{◌≡◌, ◌<◌, ◌≤◌, IfSome, None};
ghost use Rattle.transyt_moves.specs.Moves.{move, move_count};
ghost use Rattle.transyt_track.specs.Due.{edit_work};
ghost use Rattle.transyt_session.specs.Session.{standing_for, tried_below, try_of};
ghost use Rattle.transyt_desks.specs.Stretches.{made_at, net_made, work_found};

use crate::results::{Candidate, MadeMove};
use std::marker::Brand;
use std::sync::ledger::{Blank, Ledger};
use transyt_moves::move_at;
use transyt_session::{Session, Tried};
use transyt_steps::Steps;

/// Moves that the desks have tried, up to the first that lowers the index, which was made.
#[derive(Clone, Copy)]
pub(crate) struct Stretch {
    /// How many don't lower the index.
    pub(crate) passed: u32,
    /// The work of these.
    pub(crate) work: u64,
    /// The next one, if it lowers the index.
    pub(crate) made: Option<MadeMove>,
}

impl Stretch {
    /// No move yet.
    pub(crate) fn none() -> Stretch
        ensures { result ≡ record { passed = 0; work = 0; made = None } }
    {
        Stretch {
            passed: 0,
            work: 0,
            made: None,
        }
    }
}

/// The work that a try found.
pub(crate) fn work_found(found: Tried) -> u64
    ensures { result ≡ work_found found }
{
    match found {
        Tried::Barred => 0,
        Tried::Index { work, .. } => work,
    }
}

/// Tries a candidate, with a counter of steps of its own.
fn try_counted<L: Ledger>(session: &mut Session, candidate: Candidate, blank: Blank) -> Tried
    requires name { blank.name ≡ L.name }
    requires parts { blank.parts ≡ L.parts }
    requires some { 0 < L.parts }
    requires closed { session.old.before ≡ None }
    ensures tried { result ≡ try_of session.old.net candidate.edit }
    ensures few { edit_work session.old.net candidate.edit ≤ 8000 }
    ensures state { session.new ≡ tried_below candidate.bound candidate.edit session.old }
{
    let mut steps = Steps::<L>::begin(blank);
    session.try_below(candidate.edit, candidate.bound, &mut steps)
}

/// Tries the move at a place, and makes it where it is allowed and brings the index below a bound: what the try came to,
/// and the move if it is made.
#[tactic(auto, using(crate::proofs::TriedLaws::after_try, crate::proofs::TriedLaws::made_small))]
pub(crate) fn try_at(session: &mut Session, place: u32, bound: u128) -> (Tried, Option<MadeMove>)
    requires place { place < move_count session.old.net }
    requires closed { session.old.before ≡ None }
    ensures tried { result.0 ≡ try_of session.old.net (move session.old.net place) }
    ensures made { result.1 ≡ made_at session.old.net bound place }
    ensures few { edit_work session.old.net (move session.old.net place) ≤ 8000 }
    ensures small { IfSome result.1 (λ made. made.work ≤ 8000) }
    ensures state { session.new ≡ standing_for (net_made result.1 session.old.net) session.old }
{
    let candidate = Candidate {
        edit: move_at(session.net(), place),
        bound,
    };
    let found = try_counted::<Brand>(session, candidate, Blank::new(1));
    (found, candidate.made_by(found))
}

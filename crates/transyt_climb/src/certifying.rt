//! A place of the certificate.

ghost use Rattle.std.specs.Prelude.{◌≡◌, ℕ, ◌+◌, ◌^◌, ◌≤◌, ◌<◌, None};
ghost use Rattle.transyt_moves.specs.Moves.{move, move_count};
ghost use Rattle.transyt_session.specs.Session.{try_of};
ghost use Rattle.transyt_track.specs.Due.{edit_work};
ghost use Rattle.transyt_climb.specs.Turns.{certified};

use std::sync::ledger::Ledger;
use transyt_moves::move_at;
use transyt_session::{Session, Tried};
use transyt_steps::Steps;

/// Tries the move at a place: finds its index, or that it isn't allowed. Its work is credited, and nothing else
/// changes. It takes no memory.
pub fn certify<L: Ledger>(session: &mut Session, place: u32, steps: &mut Steps<L>) -> Tried
    requires place { place < move_count session.old.net }
    requires closed { session.old.before ≡ None }
    requires room { session.old.work ≤ 2 ^ 62 }
    ensures tried { result ≡ try_of session.old.net (move session.old.net place) }
    ensures state { session.new ≡ certified place session.old }
    ensures few { session.new.work ≤ session.old.work + 8000 }
    ensures steps { steps.new ≡ steps.old + edit_work session.old.net (move session.old.net place) }
{
    let edit = move_at(session.net(), place);
    let tried = session.try_edit(edit, steps);
    if let Tried::Index { work, .. } = tried {
        session.credit(work);
    }
    tried
}

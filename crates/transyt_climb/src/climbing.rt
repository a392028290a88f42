//! A whole climb on a session.

ghost use Rattle.std.specs.Prelude.{◌≡◌, ℕ, ◌+◌, ◌^◌, ◌≤◌, length, None};
ghost use Rattle.transyt_moves.specs.Moves.{move_count};
ghost use Rattle.transyt_sweep.specs.Climb.{climb};
ghost use Rattle.transyt_climb.specs.Turns.{start_at};
ghost use Rattle.transyt_climb.specs.Way.{climbed};

use crate::climber::Climber;
use std::sync::ledger::Ledger;
use transyt_session::Session;
use transyt_steps::Steps;

/// How a climb ended: how many steps it took, and whether it ended since no move lowers the index.
#[derive(Clone, Copy, Drop)]
pub struct Ended {
    /// How many steps it took.
    pub took: u32,
    /// Whether no move lowers the index; else the budget was spent.
    pub local: bool,
}

/// Climbs from the start to the end.
pub fn climb_on<L: Ledger>(
    climber: &mut Climber,
    session: &mut Session,
    steps: &mut Steps<L>,
) -> Ended
    requires start { climber.old ≡ start_at climber.old.budget (move_count session.old.net) }
    requires closed { session.old.before ≡ None }
    requires room { session.old.work ≤ 2 ^ 61 }
    ensures took { result.took ≡ length (climb session.old.net 0 climber.old.budget).steps }
    ensures local { result.local ≡ (climb session.old.net 0 climber.old.budget).local }
    ensures state { session.new ≡ climbed climber.old.budget session.old }
    ensures looks { climber.new.looked ≡ length (climb session.old.net 0 climber.old.budget).looks }
    ensures steps { steps.new + session.old.work ≡ steps.old + session.new.work }
{
    let _ = climber.budget();
    let mut took = 0;
    loop {
        let turn = climber.turn(session, steps);
        if turn.is_end() {
            return Ended {
                took,
                local: turn.is_local(),
            };
        }
        took += turn.step_count();
    }
}

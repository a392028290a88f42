//! A whole climb by rounds.

ghost use Rattle.std.specs.Prelude.{◌≡◌, ◌+◌, ◌^◌, ◌≤◌, length, None};
ghost use Rattle.transyt_moves.specs.Moves.{move_count};
ghost use Rattle.transyt_sweep.specs.Climb.{climb};
ghost use Rattle.transyt_climb.specs.Turns.{start_at};
ghost use Rattle.transyt_climb.specs.Way.{climbed};
ghost use Rattle.transyt_desks.specs.Desks.{desk_zero, AreAlike};

use crate::desks::Desks;
use crate::gate::Gate;
use std::sync::ledger::Ledger;
use std::thread::Threads;
use transyt_climb::{Climber, Ended};
use transyt_steps::Steps;

/// Climbs by rounds from the start to the end. It is the climb for every number of desks.
pub fn climb_by_rounds<R: Threads + Sync, G: Gate, L: Ledger>(
    rt: &R,
    climber: &mut Climber,
    desks: &mut Desks,
    gate: &G,
    steps: &mut Steps<L>,
) -> Ended
    requires start { climber.old
        ≡ start_at climber.old.budget (move_count (desk_zero desks.old).net) }
    requires alike { AreAlike desks.old }
    requires closed { (desk_zero desks.old).before ≡ None }
    requires room { (desk_zero desks.old).work ≤ 2 ^ 60 }
    ensures took { result.took
        ≡ length (climb (desk_zero desks.old).net 0 climber.old.budget).steps }
    ensures local { result.local ≡ (climb (desk_zero desks.old).net 0 climber.old.budget).local }
    ensures state { desk_zero desks.new ≡ climbed climber.old.budget (desk_zero desks.old) }
    ensures looks { climber.new.looked
        ≡ length (climb (desk_zero desks.old).net 0 climber.old.budget).looks }
    ensures alike { AreAlike desks.new }
    ensures workers { length desks.new ≡ length desks.old }
    ensures steps { length desks.old ≡ 1
        → steps.new + (desk_zero desks.old).work ≡ steps.old + (desk_zero desks.new).work }
{
    let _ = climber.budget();
    let mut took = 0;
    loop {
        let round = desks.stretch_round(rt, climber, gate, steps);
        if round.last.is_end() {
            return Ended {
                took,
                local: round.last.is_local(),
            };
        }
        took += round.last.step_count();
    }
}

//! A climber: where it stands in the list of moves, and its turns.

ghost use Rattle.std.specs.Prelude.{◌≡◌, ℕ, ◌+◌, ◌*◌, ◌%◌, ◌^◌, ◌≤◌, ◌<◌, Option, Some, None, if◌then◌else◌};
ghost use Rattle.transyt_moves.specs.Moves.{move, move_count};
ghost use Rattle.transyt_sweep.specs.Climb.{lowers, moved};
ghost use Rattle.transyt_track.specs.Due.{edit_work};
ghost use Rattle.transyt_climb.specs.Turns.{Counters, Machine, machine, start_of, noted, looked_at, found_at, answer_of, turned};

use crate::turn::Turn;
use std::marker::Model;
use std::sync::ledger::Ledger;
use transyt_moves::{move_at, move_count};
use transyt_net::Net;
use transyt_session::Session;
use transyt_steps::Steps;

/// How far a climb has come, by five counters. Places in the list of moves count from 0.
#[derive(Drop)]
pub struct Climber {
    place: u32,
    since: u32,
    looked: u32,
    budget: u32,
    count: u32,
}

impl Model for Climber {
    ghost use Rattle.std.specs.Prelude.{◌≤◌};
    ghost use Rattle.transyt_climb.specs.Turns.{Counters, AreCounters};

    ghost Value = { Counters };

    ghost view = { λ c. record {
      place = c.place;
      since = c.since;
      looked = c.looked;
      budget = c.budget;
      count = c.count;
    } };

    ghost invariant = { λ c. AreCounters (record {
      place = c.place;
      since = c.since;
      looked = c.looked;
      budget = c.budget;
      count = c.count;
    }) };
}

impl Climber {
    /// A climber at the start of a climb, with the budget of the network's climb plan; none where it has no plan.
    pub fn start(net: &Net) -> Option<Climber>
        ensures { result ≡ start_of net.now net.now.plan }
    {
        let plan = net.plan()?;
        Some(Climber {
            place: 0,
            since: 0,
            looked: 0,
            budget: plan.budget,
            count: move_count(net),
        })
    }

    /// The place that is looked at next.
    pub fn place(&self) -> u32
        ensures value { result ≡ self.now.place }
        ensures below { 0 < self.now.count → result < self.now.count }
    {
        self.place
    }

    /// How many places were looked at since the last step, or since the start.
    pub fn since(&self) -> u32
        ensures value { result ≡ self.now.since }
        ensures most { result ≤ self.now.count }
    {
        self.since
    }

    /// How many places were looked at.
    pub fn looked(&self) -> u32
        ensures value { result ≡ self.now.looked }
        ensures most { result ≤ self.now.budget }
    {
        self.looked
    }

    /// How many places may be looked at.
    pub fn budget(&self) -> u32
        ensures { result ≡ self.now.budget }
    {
        self.budget
    }

    /// How many places the list has.
    pub fn count(&self) -> u32
        ensures { result ≡ self.now.count }
    {
        self.count
    }

    /// Counts one look; `took` tells whether its move was made.
    pub fn note(&mut self, took: bool)
        requires since { self.old.since < self.old.count }
        requires looked { self.old.looked < self.old.budget }
        ensures { self.new ≡ noted took self.old }
    {
        self.looked += 1;
        if took {
            self.since = 0;
        } else {
            self.since += 1;
            self.place = if self.place + 1 == self.count {
                0
            } else {
                self.place + 1
            };
        }
    }

    /// One turn: an end, which changes nothing, or a look at the next place.
    ///
    /// A look counts its work once, and makes as many steps, whether its move is kept or taken back. It takes no
    /// memory.
    #[tactic(auto, using(crate::proofs::LookLaws::count_looked), unfolding(transyt_sweep::specs::Climb::lowers, transyt_sweep::specs::Climb::tried_at, transyt_sweep::specs::Climb::moved))]
    pub fn turn<L: Ledger>(&mut self, session: &mut Session, steps: &mut Steps<L>) -> Turn
        requires count { self.old.count ≡ move_count session.old.net }
        requires closed { session.old.before ≡ None }
        requires room { session.old.work ≤ 2 ^ 62 }
        ensures answer { result ≡ answer_of (machine self.old session.old) }
        ensures state { machine self.new session.new ≡ turned (machine self.old session.old) }
        ensures kept { self.new.count ≡ move_count session.new.net }
        ensures closed { session.new.before ≡ None }
        ensures few { session.new.work ≤ session.old.work + 8000 }
        ensures steps { steps.new + session.old.work ≡ steps.old + session.new.work }
    {
        if self.since() == self.count() {
            return Turn::Local;
        }
        if self.looked() == self.budget() {
            return Turn::Budget;
        }
        let place = self.place();
        let edit = move_at(session.net(), place);
        if let Some(index) = look(session, place, steps) {
            self.note(true);
            return Turn::Took { place, edit, index };
        }
        self.note(false);
        Turn::Passed
    }
}

/// Makes the move at a place where it is allowed and lowers the index, and answers the index then.
fn look<L: Ledger>(session: &mut Session, place: u32, steps: &mut Steps<L>) -> Option<u128>
    requires place { place < move_count session.old.net }
    requires closed { session.old.before ≡ None }
    requires room { session.old.work ≤ 2 ^ 62 }
    ensures found { result ≡ found_at session.old.net place }
    ensures state { session.new ≡ looked_at place session.old }
    ensures few { session.new.work ≤ session.old.work + 8000 }
    ensures steps { steps.new ≡ steps.old + edit_work session.old.net (move session.old.net place) }
{
    let edit = move_at(session.net(), place);
    session.lower(edit, steps)
}

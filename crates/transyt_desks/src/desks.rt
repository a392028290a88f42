//! The desks, and their rounds.

ghost use Rattle.std.specs.Prelude.{◌≡◌, ◌≢◌, ◌+◌, ◌*◌, ◌^◌, ◌≤◌, ◌↔◌, length, max, None, IfOk, IsTrue};
ghost use Rattle.std.specs.Borrow.{sem};
ghost use Rattle.transyt_climb.specs.Turns.{machine};
ghost use Rattle.transyt_desks.specs.Desks.{desk_zero, opened_desks, sessions_of, with_zero, AreAligned, AreAlike};
ghost use Rattle.transyt_desks.specs.Lends.{LendsZero};
ghost use Rattle.transyt_desks.specs.Stretches.{AreTriesOf, IsStretch, net_made};
ghost use Rattle.transyt_moves.specs.Moves.{move_count};
ghost use Rattle.transyt_session.specs.Session.{credited, standing_for};
ghost use Rattle.transyt_track.specs.Due.{cert_work};
ghost use Rattle.transyt_desks.specs.Rounds.{places_of, room_of, CanRound, MakesRound, RoundsDesks};

use crate::batch::Batch;
use crate::crew::{crew_size, open_crew};
use crate::desk::{Desk, all_stand};
use crate::desk_count::DeskCount;
use crate::gate::{Gate, OpenGate};
use crate::job::Job;
use crate::policy::{goes_alone, split};
use crate::rounds::{batch_of, end_of};
use crate::runner::Runner;
use crate::split::Split;
use crate::stretch::Stretch;
use crate::trying::{hand_on, try_moves_alone};
use crate::turns::{Round, note_passed};
use std::alloc::{AllocError, Global};
use std::marker::Model;
use std::sync::ledger::Ledger;
use std::thread::Threads;
use transyt_climb::{Climber, Turn};
use transyt_moves::move_count;
use transyt_session::{Session, Tried};
use transyt_steps::Steps;

/// One to eight desks. Desk 0's session is the one that counts; the others follow it.
pub struct Desks {
    /// The session of desk 0.
    zero: Session,
    /// Who tries while desk 0 is read: a session more, which no clause sees, and the other desks. None where there is no
    /// other.
    crew: Vec<Desk>,
    /// How many of the first of the crew are known to stand for the network of desk 0.
    in_step: usize,
}

impl Drop for Desks {
    // Written out: a derived one is proved again in each crate that lets a value go.
    fn drop(self) {
        let Desks {
            zero: _,
            crew: _,
            in_step: _,
        } = self;
    }
}

impl Model for Desks {
    ghost use Rattle.std.specs.Prelude.{List};
    ghost use Rattle.transyt_session.specs.Session.{SessionValue};
    ghost use Rattle.transyt_desks.specs.Desks.{desks_of, sessions_of, AreDesks};

    ghost Value = { List SessionValue };

    ghost view = { λ d. desks_of d.zero (sessions_of d.crew.items) };

    ghost invariant = { λ d. AreDesks d.zero (sessions_of d.crew.items) d.in_step };
}

impl Desks {
    /// So many desks: the session is desk 0, and the others are its twins. It takes all the memory that they ever need;
    /// without it the session is given up.
    pub fn open(alloc: Global, session: Session, workers: u32) -> Result<Desks, AllocError>
        requires some { 1 ≤ workers }
        requires few { workers ≤ 8 }
        requires closed { session.before ≡ None }
        ensures { IfOk result (λ desks. desks ≡ opened_desks session workers) }
    {
        let Ok(crew) = open_crew(alloc, &session, crew_size(workers)) else {
            drop(session);
            return Err(AllocError);
        };
        Ok(Desks {
            zero: session,
            crew,
            in_step: 0,
        })
    }

    /// The session of desk 0.
    pub fn session(&self) -> &Session
        ensures { result.now ≡ desk_zero self.now }
    {
        &self.zero
    }

    /// The session of desk 0, to be changed. The other desks stay as they are.
    pub fn session_mut(&mut self) -> &mut Session
        ensures* writes_back { sem 𝓛 (LendsZero self.entry result) }
        ensures value { result.now ≡ desk_zero self.old }
    {
        self.in_step = 0;
        &mut self.zero
    }

    /// How many desks there are.
    fn count(&self) -> DeskCount
        ensures { result.number ≡ length self.now }
    {
        DeskCount {
            number: self.crew.len().max(1),
        }
    }

    /// Lets every other desk stand for the network of desk 0.
    fn follow_all<R: Threads + Sync>(&mut self, rt: &R)
        requires alike { AreAlike self.old }
        ensures aligned { AreAligned self.new }
        ensures zero { desk_zero self.new ≡ desk_zero self.old }
        ensures workers { length self.new ≡ length self.old }
    {
        let count = self.crew.len();
        if count <= self.in_step {
            return;
        }
        let batch = Batch {
            place: 0,
            count: move_count(self.zero.net()),
            room: 0,
            desks: count as u32,
            bound: 0,
            known: false,
        };
        let runner = Runner {
            rt,
            gate: &OpenGate,
        };
        let zero = &self.zero;
        runner.try_moves_forked(self.crew.as_mut_slice(), Job { zero, batch });
        self.in_step = count;
    }

    /// Lets every other desk stand for the network of desk 0, each in a thread that `rt` forks. It takes no memory, and
    /// does nothing with one desk.
    pub fn align<R: Threads + Sync, L: Ledger>(&mut self, rt: &R, steps: &mut Steps<L>)
        requires alike { AreAlike self.old }
        ensures aligned { AreAligned self.new }
        ensures zero { desk_zero self.new ≡ desk_zero self.old }
        ensures workers { length self.new ≡ length self.old }
        ensures alone { length self.old ≡ 1 → steps.new ≡ steps.old }
    {
        self.follow_all(rt);
    }

    /// Whether every desk stands for the network of desk 0.
    pub fn aligned(&self) -> bool
        ensures { IsTrue result ↔ AreAligned self.now }
    {
        if self.crew.is_empty() {
            return true;
        }
        let (_, others) = self.crew.as_slice().split_at(1);
        all_stand(others, self.zero.net())
    }

    /// Tries consecutive moves of the list from a place on, all desks at once, and writes the result of each: at most 32
    /// moves for each desk.
    ///
    /// No session changes, but that the other desks stand for the network of desk 0 afterwards. No work is added: credit
    /// it where it counts. The moves come to the desks in turn. A desk tries its own between entering and leaving the
    /// gate. It takes no memory. With one desk it makes as many steps as the tries have work.
    pub fn try_moves<R: Threads + Sync, G: Gate, L: Ledger>(
        &mut self,
        rt: &R,
        gate: &G,
        from: u32,
        tries: &mut [Tried],
        steps: &mut Steps<L>,
    )
        requires alike { AreAlike self.old }
        requires closed { (desk_zero self.old).before ≡ None }
        requires places { from + length tries.old ≤ move_count (desk_zero self.old).net }
        requires room { length tries.old ≤ 32 * length self.old }
        ensures tried { AreTriesOf (desk_zero self.old).net from (length tries.old) tries.new }
        ensures len { length tries.new ≡ length tries.old }
        ensures zero { desk_zero self.new ≡ desk_zero self.old }
        ensures alike { AreAlike self.new }
        ensures workers { length self.new ≡ length self.old }
        ensures steps { length self.old ≡ 1 → steps.new + cert_work (desk_zero self.old).net from
            ≡ steps.old + cert_work (desk_zero self.old).net (from + length tries.old) }
    {
        if self.crew.is_empty() {
            gate.enter(0);
            try_moves_alone(&mut self.zero, from, tries, steps);
            gate.leave(0);
            return;
        }
        let batch = Batch {
            place: from,
            count: move_count(self.zero.net()),
            room: tries.len() as u32,
            desks: self.crew.len() as u32,
            bound: 0,
            known: false,
        };
        let zero = &self.zero;
        let job = Job { zero, batch };
        Runner { rt, gate }.try_moves_forked(self.crew.as_mut_slice(), job);
        hand_on(self.crew.as_slice(), job, tries);
        self.in_step = self.crew.len();
    }

    /// Tries the next moves of a climber's list, as many as a split gives to the desks that try, all at once, and gives them
    /// as a stretch, up to the first that lowers the index. Desk 0 stands for the network with that move made then, with
    /// its work as it was.
    fn try_next<R: Threads + Sync, G: Gate>(
        &mut self,
        runner: &Runner<'_, R, G>,
        split: Split,
        climber: &Climber,
    ) -> Stretch
        requires within { split.desks.number ≤ length self.old }
        requires alike { AreAlike self.old }
        requires ready { CanRound climber.now (desk_zero self.old) }
        ensures tried { IsStretch (desk_zero self.old).net climber.now.place climber.now.count
            (room_of (split.desks.number * split.each) climber.now) result }
        ensures zero { desk_zero self.new
            ≡ standing_for (net_made result.made (desk_zero self.old).net) (desk_zero self.old) }
        ensures alike { AreAlike self.new }
        ensures workers { length self.new ≡ length self.old }
    {
        let count = split.desks.number;
        let next = batch_of(climber, split, self.zero.index());
        let batch = next.with_known(count <= self.in_step);
        let tried = runner.try_stretch(&mut self.zero, self.crew.as_mut_slice(), batch);
        self.in_step = known_after(tried, count, self.in_step);
        tried
    }

    /// Adds to the work of desk 0.
    fn credit(&mut self, work: u64)
        requires room { (desk_zero self.old).work + work ≤ 2 ^ 63 }
        ensures { self.new ≡ with_zero self.old (credited work (desk_zero self.old)) }
    {
        self.zero.credit(work);
    }

    /// A round of one turn at desk 0, which passes the gate. The other desks stay as they are.
    fn turn_at_zero<G: Gate, L: Ledger>(
        &mut self,
        gate: &G,
        climber: &mut Climber,
        steps: &mut Steps<L>,
    ) -> Round
        requires ready { CanRound climber.old (desk_zero self.old) }
        ensures made { RoundsDesks 1 climber.old self.old climber.new self.new result }
        ensures steps { steps.new + (desk_zero self.old).work
            ≡ steps.old + (desk_zero self.new).work }
    {
        if let Some(last) = end_of(climber) {
            return Round { turns: 1, last };
        }
        gate.enter(0);
        self.in_step = 0;
        let last = climber.turn(&mut self.zero, steps);
        gate.leave(0);
        Round { turns: 1, last }
    }

    /// A round in which the desks of a split try the moves that it gives each of them, or the end of the climb.
    fn together<R: Threads + Sync, G: Gate>(
        &mut self,
        runner: &Runner<'_, R, G>,
        split: Split,
        climber: &mut Climber,
    ) -> Round
        requires within { split.desks.number ≤ length self.old }
        requires alike { AreAlike self.old }
        requires ready { CanRound climber.old (desk_zero self.old) }
        ensures { RoundsDesks (split.desks.number * split.each) climber.old self.old
            climber.new self.new result }
    {
        if let Some(last) = end_of(climber) {
            return Round { turns: 1, last };
        }
        let tried = self.try_next(runner, split, climber);
        note_passed(climber, tried.passed);
        self.credit(tried.work);
        let Some(made) = tried.made else {
            return Round {
                turns: tried.passed,
                last: Turn::Passed,
            };
        };
        let place = climber.place();
        climber.note(true);
        self.credit(made.work);
        Round {
            turns: tried.passed + 1,
            last: Turn::Took {
                place,
                edit: made.edit,
                index: made.index,
            },
        }
    }

    /// A round: the next moves of the list are tried at once, one at each desk, and the first of them that lowers the
    /// index is made at every desk.
    ///
    /// Climber and desk 0, its work too, become what `turns` turns of the climber on desk 0 make of them. A desk tries
    /// its move between entering and leaving the gate. It takes no memory. With one desk it makes as many steps as the
    /// work that it adds.
    pub fn round<R: Threads + Sync, G: Gate, L: Ledger>(
        &mut self,
        rt: &R,
        climber: &mut Climber,
        gate: &G,
        steps: &mut Steps<L>,
    ) -> Round
        requires aligned { AreAligned self.old }
        requires ready { CanRound climber.old (desk_zero self.old) }
        ensures made { MakesRound (length self.old) (machine climber.old (desk_zero self.old))
            (machine climber.new (desk_zero self.new)) result }
        ensures aligned { AreAligned self.new }
        ensures workers { length self.new ≡ length self.old }
        ensures steps { length self.old ≡ 1
            → steps.new + (desk_zero self.old).work ≡ steps.old + (desk_zero self.new).work }
    {
        if self.count().number == 1 {
            return self.turn_at_zero(gate, climber, steps);
        }
        let split = Split {
            desks: self.count(),
            each: 1,
        };
        let round = self.together(&Runner { rt, gate }, split, climber);
        self.follow_all(rt);
        round
    }

    /// A round in which desk 0 goes on alone, early in a climb and for a while after a step, or else the desks try the next
    /// moves in turn, the more the longer no move lowers the index: as many in all as `places_of` says, and up to some
    /// places after a step no more than four of the desks. The first of them that lowers the index is made at desk 0.
    ///
    /// Early in a climb the same move mostly lowers the index again right after a step, so that one desk goes on alone,
    /// with nothing to copy. The other desks stand for the network of desk 0 again once they try. A desk tries its moves
    /// between entering and leaving the gate. All else is as in `round`.
    pub fn stretch_round<R: Threads + Sync, G: Gate, L: Ledger>(
        &mut self,
        rt: &R,
        climber: &mut Climber,
        gate: &G,
        steps: &mut Steps<L>,
    ) -> Round
        requires alike { AreAlike self.old }
        requires ready { CanRound climber.old (desk_zero self.old) }
        ensures made { MakesRound (places_of (length self.old) climber.old)
            (machine climber.old (desk_zero self.old)) (machine climber.new (desk_zero self.new))
            result }
        ensures alike { AreAlike self.new }
        ensures workers { length self.new ≡ length self.old }
        ensures steps { length self.old ≡ 1
            → steps.new + (desk_zero self.old).work ≡ steps.old + (desk_zero self.new).work }
    {
        if goes_alone(self.count(), climber) {
            return self.turn_at_zero(gate, climber, steps);
        }
        let split = split(self.count(), climber);
        self.together(&Runner { rt, gate }, split, climber)
    }
}

/// How many of a crew are known to stand for the network of desk 0 after a stretch by so many: with a step none, and else
/// these and those that were.
fn known_after(tried: Stretch, count: usize, in_step: usize) -> usize
    ensures none { tried.made ≡ None → result ≡ max count in_step }
    ensures some { tried.made ≢ None → result ≡ 0 }
{
    match tried.made {
        None => count.max(in_step),
        Some(_) => 0,
    }
}

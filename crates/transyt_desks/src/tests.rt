//! Rounds with the runtime's threads: two desks at work at once.

ghost use Rattle.std.specs.Prelude.{◌≡◌, ◌<◌, IfSome};
ghost use Rattle.transyt_moves.specs.Moves.{move_count};
ghost use Rattle.transyt_climb.specs.Turns.{start_at};
ghost use Rattle.transyt_desks.specs.Desks.{AreAligned};

mod meeting;
mod towns;

use self::meeting::Meeting;
use self::towns::{Plan, town};
use crate::{Desks, Gate, Round};
use std::alloc::{AllocError, Global};
use std::marker::Brand;
use std::sync::ledger::{Blank, Ledger};
use std::test::Fail;
use std::thread::Threads;
use transyt_climb::{Climber, Turn, move_count};
use transyt_net::{Edit, Net};
use transyt_session::Session;
use transyt_steps::Steps;

/// The most work of a session that takes a climb or a round.
const MOST_WORK: u64 = 1_000_000;

/// A climber at the start of a climb of a network; none where it has no climb plan.
fn climber_of(net: &Net) -> Option<Climber>
    ensures { IfSome result (λ climber. climber ≡ start_at climber.budget (move_count net.now)) }
{
    let Some(climber) = Climber::start(net) else {
        return None;
    };
    Some(climber)
}

/// Two desks on a network.
fn two_desks<L: Ledger>(
    alloc: Global,
    net: Net,
    steps: &mut Steps<L>,
) -> Result<Desks, AllocError> {
    let session = Session::open(alloc, net, steps)?;
    Desks::open(alloc, session, 2)
}

/// A climb of the junction.
const CLIMBS: [(u32, Plan); 1] = [(
    1,
    Plan {
        budget: 100,
        sizes: &[1],
    },
)];

/// Two rounds, and the counts of the gate after the first of them.
type Rounds = (Round, [u64; 3], Round);

/// A climb by rounds of desks.
#[derive(Drop)]
struct Climb<'a> {
    climber: Climber,
    desks: &'a mut Desks,
}

impl Climb<'_> {
    /// A round; none where the desks don't stand for one network, a trial is open, the climber's list isn't the
    /// network's, or there is much work.
    fn next_round<R: Threads + Sync, G: Gate, L: Ledger>(
        &mut self,
        rt: &R,
        gate: &G,
        steps: &mut Steps<L>,
    ) -> Option<Round> {
        let session = self.desks.session();
        let count = move_count(session.net());
        if !self.desks.aligned()
            || session.is_trial()
            || self.climber.count() != count
            || session.work() > MOST_WORK
        {
            return None;
        }
        Some(self.desks.round(rt, &mut self.climber, gate, steps))
    }

    /// Two rounds at a gate where the desks wait for each other.
    fn two_rounds<R: Threads + Sync, L: Ledger>(
        &mut self,
        rt: &R,
        steps: &mut Steps<L>,
    ) -> Option<Rounds> {
        let gate = Meeting::new();
        let first = self.next_round(rt, &gate, steps)?;
        let counts = gate.counts();
        let second = self.next_round(rt, &gate, steps)?;
        Some((first, counts, second))
    }
}

/// Lets all desks stand for the network of desk 0, which they do already.
fn align<R: Threads + Sync, L: Ledger>(rt: &R, desks: &mut Desks, steps: &mut Steps<L>)
    requires { AreAligned desks.old }
{
    desks.align(rt, steps);
}

/// Two rounds from the start of a climb, after which all desks stand for one network.
fn first_rounds<R: Threads + Sync, L: Ledger>(
    rt: &R,
    desks: &mut Desks,
    steps: &mut Steps<L>,
) -> Option<Rounds> {
    let climber = climber_of(desks.session().net())?;
    if !desks.aligned() {
        return None;
    }
    align(rt, desks, steps);
    let mut climb = Climb {
        climber,
        desks: &mut *desks,
    };
    let found = climb.two_rounds(rt, steps)?;
    if !desks.aligned() {
        return None;
    }
    Some(found)
}

/// Two rounds of two desks.
fn two_rounds_of_two<R: Threads + Sync + AllocGlobal, L: Ledger>(
    rt: &R,
    net: Net,
    blank: Blank,
) -> Result<Option<Rounds>, AllocError>
    requires name { blank.name ≡ L.name }
    requires parts { blank.parts ≡ L.parts }
    requires some { 0 < L.parts }
{
    let mut steps = Steps::<L>::begin(blank);
    let mut desks = two_desks(rt.alloc(), net, &mut steps)?;
    Ok(first_rounds(rt, &mut desks, &mut steps))
}

const PASSED: Round = Round {
    turns: 2,
    last: Turn::Passed,
};

const TOOK: Round = Round {
    turns: 2,
    last: Turn::Took {
        place: 3,
        edit: Edit::Change {
            node: 1,
            stage: 1,
            change: 9,
        },
        index: 1352922,
    },
};

#[test]
fn two_desks_are_at_work_at_once(rt: HostRuntime) -> Result<(), Fail> {
    let net = town(rt.alloc(), 1, CLIMBS[0].1)?;
    let found = two_rounds_of_two::<HostRuntime, Brand>(&rt, net, Blank::new(1))?;
    assert!(rt; found == Some((PASSED, [1, 1, 0], TOOK)));
    Ok(())
}

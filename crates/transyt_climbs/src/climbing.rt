//! One climb, and its row.

ghost use Rattle.std.specs.Prelude.{◌≡◌, ◌^◌, ◌≤◌, ◌<◌, None, IfOk, IfSome};
ghost use Rattle.transyt_climbs.specs.Climbs.{climbed_row, own_climb, end_of, row_at, row_of};

use crate::gate::ClimbGate;
use crate::networks::{NetworkAt, NetworkList};
use crate::row::{Climbed, NetworkRow};
use crate::work::Work;
use std::alloc::{AllocError, Global};
use std::sync::ledger::Ledger;
use transyt_climb::{Climber, climb_on};
use transyt_net::Net;
use transyt_session::Session;
use transyt_steps::{Counting, Steps, uncounted};

/// Climbs a session's network once by its climb plan. Without a plan there is nothing to look at, so that the row has 0
/// steps, LOCAL and 0 looks.
fn climb_once<L: Ledger>(number: u32, session: &mut Session, steps: &mut Steps<L>) -> Climbed
    requires closed { session.old.before ≡ None }
    requires room { session.old.work ≤ 2 ^ 60 }
    ensures row { result ≡ climbed_row number session.old.net }
    ensures end { session.new.net ≡ (own_climb session.old.net).net }
{
    let from = session.index();
    let Some(mut climber) = Climber::start(session.net()) else {
        return Climbed {
            number,
            from,
            took: 0,
            local: true,
            looked: 0,
            to: from,
        };
    };
    let ended = climb_on(&mut climber, session, steps);
    Climbed {
        number,
        from,
        took: ended.took,
        local: ended.local,
        looked: climber.looked(),
        to: session.index(),
    }
}

/// A network that is climbed on for its row, by a session of its own.
#[derive(Drop)]
struct RowClimb {
    alloc: Global,
    number: u32,
    net: Net,
}

impl Counting for RowClimb {
    type Answer = Result<Climbed, AllocError>;

    ghost use Rattle.std.specs.Prelude.{◌≡◌, ⊤, IfOk};
    ghost use Rattle.transyt_climbs.specs.Climbs.{climbed_row};

    ghost needs = { λ _. ⊤ };

    ghost gives = { λ self result. IfOk result (λ row. row ≡ climbed_row self.number self.net) };

    fn count_on<L: Ledger>(self, steps: &mut Steps<L>) -> Result<Climbed, AllocError> {
        let mut session = Session::open(self.alloc, self.net, steps)?;
        let row = climb_once(self.number, &mut session, steps);
        drop(session);
        Ok(row)
    }
}

/// A network that is climbed on for the network at the end, by a session of its own.
#[derive(Drop)]
struct EndClimb {
    alloc: Global,
    net: Net,
}

impl Counting for EndClimb {
    type Answer = Result<Net, AllocError>;

    ghost use Rattle.std.specs.Prelude.{◌≡◌, ⊤, IfOk};
    ghost use Rattle.transyt_climbs.specs.Climbs.{own_climb};

    ghost needs = { λ _. ⊤ };

    ghost gives = { λ self result. IfOk result (λ end. end ≡ (own_climb self.net).net) };

    fn count_on<L: Ledger>(self, steps: &mut Steps<L>) -> Result<Net, AllocError> {
        let mut session = Session::open(self.alloc, self.net, steps)?;
        let _ = climb_once(0, &mut session, steps);
        let end = session.net().copy(self.alloc);
        drop(session);
        end
    }
}

/// The network at the end of the climb of a network, if there is one to climb on.
fn end_of(alloc: Global, at: NetworkAt) -> Result<Option<Net>, AllocError>
    ensures { IfOk result (λ end. end ≡ end_of at) }
{
    match at {
        NetworkAt::Plan(net) => {
            let end = uncounted(EndClimb { alloc, net })?;
            Ok(Some(end))
        }
        _ => Ok(None),
    }
}

/// The row of a network, or of the reason why there is none.
fn row_of(alloc: Global, number: u32, at: NetworkAt) -> Result<NetworkRow, AllocError>
    ensures { IfOk result (λ row. row ≡ row_of number at) }
{
    match at {
        NetworkAt::Plan(net) => {
            let climbed = uncounted(RowClimb { alloc, number, net })?;
            Ok(NetworkRow::Climbed(climbed))
        }
        NetworkAt::Barred { node } => Ok(NetworkRow::Barred { number, node }),
        NetworkAt::NoPlan => Ok(NetworkRow::NoPlan { number }),
    }
}

/// The row of the network at a place; none where memory is out.
fn row_at<P: NetworkList, B>(work: &Work<'_, P, B>, place: usize) -> Option<NetworkRow>
    requires { place < (P.list work.now.asked.now).count }
    ensures { IfSome result (λ row. row
        ≡ row_at (P.list work.now.asked.now) work.now.net.now place) }
{
    let Ok(at) = work.asked.network(work.alloc, work.net, place) else {
        return None;
    };
    row_of(work.alloc, work.asked.number(place), at).ok()
}

impl<'a, P: NetworkList, B: ClimbGate> Work<'a, P, B> {
    /// The row at a place, made between entering and leaving the gate; none where memory is out.
    pub(crate) fn pass_gate(&self, place: usize) -> Option<NetworkRow>
        requires { place < (P.list self.now.asked.now).count }
        ensures { IfSome result (λ row. row
            ≡ row_at (P.list self.now.asked.now) self.now.net.now place) }
    {
        let number = self.asked.number(place);
        self.gate.enter(number);
        let row = row_at(self, place);
        self.gate.leave(number);
        row
    }

    /// The network at the end of the climb at a place, if there is a network to climb on. Without a climb plan it is the
    /// network that the climb begins with.
    pub fn end_at(&self, place: usize) -> Result<Option<Net>, AllocError>
        requires { place < (P.list self.now.asked.now).count }
        ensures { IfOk result (λ end. end
            ≡ end_of ((P.list self.now.asked.now).network self.now.net.now place)) }
    {
        let at = self.asked.network(self.alloc, self.net, place)?;
        end_of(self.alloc, at)
    }
}

//! What a round begins with: the end of a climb, or the moves that the desks of a split try.

ghost use Rattle.std.specs.Prelude.{◌≡◌, ◌*◌, ◌<◌, Some, None, IsTrue};
ghost use Rattle.transyt_climb.specs.Turns.{is_end, machine, answer_of};
ghost use Rattle.transyt_session.specs.Session.{SessionValue};
ghost use Rattle.transyt_desks.specs.Rounds.{room_of};

use crate::batch::Batch;
use crate::split::Split;
use transyt_climb::{Climber, Turn};

/// The answer of a climber's next turn, where it is an end of the climb.
pub(crate) fn end_of(climber: &Climber) -> Option<Turn>
    ensures answer { (last : Turn) (s : SessionValue) → result ≡ Some last
        → last ≡ answer_of (machine climber.now s) }
    ensures end { (last : Turn) → result ≡ Some last → IsTrue (is_end last) }
    ensures place { result ≡ None → climber.now.place < climber.now.count }
    ensures since { result ≡ None → climber.now.since < climber.now.count }
    ensures looked { result ≡ None → climber.now.looked < climber.now.budget }
{
    let _ = climber.place();
    if climber.since() == climber.count() {
        return Some(Turn::Local);
    }
    if climber.looked() == climber.budget() {
        return Some(Turn::Budget);
    }
    None
}

/// The next moves of a climber's list for the desks of a split, up to its budget and at most once round the list, and the
/// bound below which they make a move.
pub(crate) fn batch_of(climber: &Climber, split: Split, bound: u128) -> Batch
    ensures place { result.place ≡ climber.now.place }
    ensures list { result.count ≡ climber.now.count }
    ensures room { result.room ≡ room_of (split.desks.number * split.each) climber.now }
    ensures desks { result.desks ≡ split.desks.number }
    ensures bound { result.bound ≡ bound }
{
    let looks = climber.budget() - climber.looked();
    let left = climber.count() - climber.since();
    Batch {
        place: climber.place(),
        count: climber.count(),
        room: split.places().min(looks.min(left)),
        desks: split.desks.number as u32,
        bound,
        known: false,
    }
}

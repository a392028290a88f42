//! The turns of a round that pass, some of whose moves the desks have tried before.

ghost use Rattle.std.specs.Prelude.{◌≡◌, ◌≤◌};
ghost use Rattle.transyt_desks.specs.Rounds.{looks_left, passed_by};

use transyt_climb::{Climber, Turn};

/// A round: so many turns, and what the last of them answers. All before it pass.
#[derive(Clone, Copy, PartialEq, Eq)]
pub struct Round {
    pub turns: u32,
    pub last: Turn,
}

/// Counts so many looks at moves that don't lower the index.
pub(crate) fn note_passed(climber: &mut Climber, passed: u32)
    requires left { passed ≤ looks_left climber.old }
    ensures { climber.new ≡ passed_by passed climber.old }
{
    let _ = climber.place();
    for looked in 0..passed {
        climber.note(false);
    }
}

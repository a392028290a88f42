//! The answer of a climber's turn.

ghost use Rattle.std.specs.Prelude.{◌≡◌, ◌≤◌, [], length};
ghost use Rattle.transyt_climb.specs.Turns.{is_end, is_local, step_then};

use transyt_net::Edit;

/// The answer of a turn.
#[derive(Clone, Copy, PartialEq, Eq)]
pub enum Turn {
    /// The move at this place was made, as this edit, and lowered the index to this one.
    Took { place: u32, edit: Edit, index: u128 },
    /// The move at the place isn't allowed, or doesn't lower the index.
    Passed,
    /// A whole round of the list lowers nothing: the climb is over.
    Local,
    /// As many places as may be were looked at: the climb is over.
    Budget,
}

impl Turn {
    /// Whether the climb is over.
    pub fn is_end(self) -> bool
        ensures { result ≡ is_end self }
    {
        matches!(self, Turn::Local | Turn::Budget)
    }

    /// Whether the climb is over because no move lowers the index.
    pub fn is_local(self) -> bool
        ensures { result ≡ is_local self }
    {
        matches!(self, Turn::Local)
    }

    /// How many steps it took: one or none.
    pub fn step_count(self) -> u32
        ensures value { result ≡ length (step_then self []) }
        ensures few { result ≤ 1 }
    {
        match self {
            Turn::Took { .. } => 1,
            _ => 0,
        }
    }
}

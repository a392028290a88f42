//! Which desks try in a round, and how many places.

ghost use Rattle.std.specs.Prelude.{◌≡◌, ◌*◌, ◌<◌, ◌≤◌};

use crate::desk_count::DeskCount;

/// How the next places of a list are shared between several desks: so many desks try 1 to 64 places each.
#[derive(Clone, Copy)]
pub(crate) struct Split {
    /// How many desks try.
    pub(crate) desks: DeskCount,
    /// How many places each of them tries.
    pub(crate) each: u32,
    ghost several: { 1 < desks.number },
    ghost some_each: { 0 < each },
    ghost few_each: { each ≤ 64 },
}

impl Split {
    /// How many places all of them try.
    pub(crate) fn places(self) -> u32
        ensures value { result ≡ self.desks.number * self.each }
        ensures some { 0 < result }
        ensures most { result ≤ 64 * self.desks.number }
    {
        self.desks.number as u32 * self.each
    }
}

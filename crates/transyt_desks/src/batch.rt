//! A batch: moves of the list that desks try at once.

ghost use Rattle.std.specs.Prelude.{◌≡◌, ◌*◌, ◌<◌, ◌≤◌};

/// The moves that the desks of a round try: from a place on, round the list. They are numbered from 0.
///
/// The list has that place if any is tried, and at most 64 moves come to each of two to eight desks.
#[derive(Clone, Copy)]
pub(crate) struct Batch {
    /// The place of the first.
    pub(crate) place: u32,
    /// How many places the list has.
    pub(crate) count: u32,
    /// How many moves are tried.
    pub(crate) room: u32,
    /// How many desks try them, in turn.
    pub(crate) desks: u32,
    /// A desk makes the first of its moves that brings the index below this, and tries no more. With 0 it makes none.
    pub(crate) bound: u128,
    /// Whether the desks are known to stand for the network whose moves these are. Otherwise they come to it first.
    pub(crate) known: bool,
    ghost place_within: { 0 < room → place < count },
    ghost several: { 1 < desks },
    ghost many: { desks ≤ 8 },
    ghost room_within: { room ≤ 64 * desks },
}

impl Batch {
    /// The same batch, for desks that are known to stand for the network, or for others.
    pub(crate) fn with_known(self, known: bool) -> Batch
        ensures place { result.place ≡ self.place }
        ensures count { result.count ≡ self.count }
        ensures room { result.room ≡ self.room }
        ensures desks { result.desks ≡ self.desks }
        ensures bound { result.bound ≡ self.bound }
        ensures known { result.known ≡ known }
    {
        Batch {
            place: self.place,
            count: self.count,
            room: self.room,
            desks: self.desks,
            bound: self.bound,
            known,
        }
    }
}

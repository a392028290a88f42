//! What the moves that a desk tries come to.

ghost use Rattle.std.specs.Prelude.{◌≡◌, replicate, None};
ghost use Rattle.transyt_session.specs.declared.answers.Tried.TheVariants.{Barred};
ghost use Rattle.transyt_desks.specs.Stretches.{made_by};

use transyt_net::Edit;
use transyt_session::Tried;

/// A move that a desk has made.
#[derive(Clone, Copy)]
pub(crate) struct MadeMove {
    /// The move.
    pub(crate) edit: Edit,
    /// The index of the network with it.
    pub(crate) index: u128,
    /// The work of it.
    pub(crate) work: u64,
}

/// What the moves that a desk tried came to, in turn, up to the first that it made.
#[derive(Clone, Copy)]
pub(crate) struct TryResults {
    /// What the first `passed` came to, which were taken back.
    pub(crate) tries: [Tried; 64],
    /// How many were taken back.
    pub(crate) passed: u32,
    /// The one after them, if it was made.
    pub(crate) made: Option<MadeMove>,
}

impl TryResults {
    /// No move is tried yet.
    pub(crate) fn none() -> TryResults
        ensures { result ≡ record { tries = replicate 64 Barred; passed = 0; made = None } }
    {
        TryResults {
            tries: [Tried::Barred; 64],
            passed: 0,
            made: None,
        }
    }
}

/// A move that a desk tries, and makes where it brings the index below a bound.
#[derive(Clone, Copy)]
pub(crate) struct Candidate {
    /// The move.
    pub(crate) edit: Edit,
    /// The bound.
    pub(crate) bound: u128,
}

impl Candidate {
    /// The move that is made by the result of a try of it: it is allowed and brings the index below the bound.
    pub(crate) fn made_by(self, found: Tried) -> Option<MadeMove>
        ensures { result ≡ made_by self.bound self.edit found }
    {
        match found {
            Tried::Index { index, work } if index < self.bound => Some(MadeMove {
                edit: self.edit,
                index,
                work,
            }),
            _ => None,
        }
    }
}

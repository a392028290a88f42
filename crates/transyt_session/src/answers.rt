//! The answers of a session.

use transyt_net::EditFault;

/// The answer to an edit.
#[derive(Clone, Copy, PartialEq, Eq)]
pub enum Reply {
    /// It was made, in this work: pairs of a sweep and a link that were worked out anew.
    Done { work: u64 },
    /// It isn't allowed, and nothing has changed.
    Refused(EditFault),
}

/// The answer to a try of an edit.
#[derive(Clone, Copy, PartialEq, Eq)]
pub enum Tried {
    /// It isn't allowed.
    Barred,
    /// The index with it made, and the work of finding it.
    Index { index: u128, work: u64 },
}

/// A trial is open already.
#[derive(Clone, Copy, PartialEq, Eq)]
pub struct TrialOpen;

/// No trial is open.
#[derive(Clone, Copy, PartialEq, Eq)]
pub struct NoTrial;

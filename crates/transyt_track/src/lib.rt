//! A tracker: it stands for a network, keeps the rows of its evaluation, and follows edits by working out only the
//! pairs of a link and a sweep that are due.
//!
//! Cite `due` of `specs/Due` first: the number of pairs whose own data or whose reads differ between two networks of
//! one shape. `edit_work`, `work_of` and `cert_work` of `specs/Due` are the work of an edit, of a climb and of a
//! certificate. A `Tracker` is seen as the record `TrackerValue` of `specs/Tracker`: the network that it stands for,
//! and the one that its open mark stands for, or none. What it shows is the evaluation of that network, at every sweep.
//! The law of the front is `AreAt` of `specs/Front`, that of the mark `AreOfMark` of `specs/Tracker`.
//!
//! All memory is taken by `Tracker::open` and `Tracker::twin`: beside its two networks a tracker takes at most
//! `MOST_BYTES`, 24.2 million bytes. That a plan is evaluated again after each change is from LR 253; which pairs are
//! worked out again, marks are this project's own.
#![tactic(auto)]

mod change;
mod found;
mod front;
mod laws;
mod own;
mod reading;
mod replacing;
mod returning;
mod room;
mod size;
mod starting;
mod tracker;

pub use found::Found;
pub use laws::{rule_of_due, worked_own, worked_work};
pub use size::MOST_BYTES;
pub use tracker::Tracker;

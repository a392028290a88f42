//! How a run over the lines of a source ends, and what is said of it, whatever answers them.
//!
//! A run ends with a [`Status`]: [`ended`], [`stopped`] and [`stopped_reading`] give it. A contract sees what is
//! reported of bytes as a `Reporting` of `specs/Outcome`, and what a run did as an `Outcome` of it: the bytes taken,
//! the bytes written, and what the status says of both. `specs/Runs` has the reporting of an answering, `of_lines`, and
//! the steps of its lines; `proofs/RunLaws` says how far a run has come from turn to turn. With `IsSettled by` the laws
//! of `proofs/Head` give the report of the whole input where no count of faults rose: `headline`, `complete` and
//! `too_long_where`.
#![tactic(auto)]

mod ending;
mod laws;
mod limits;
mod status;

pub use ending::{Ending, Stop, ended, stopped, stopped_reading};
pub use laws::worked_outcomes;
pub use limits::{worked_claims, worked_faults, worked_limits};
pub use status::Status;

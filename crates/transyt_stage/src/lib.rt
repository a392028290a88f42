//! When a link may go: its green by the stages of its node, and the rule by which it gives way.
//!
//! A profile is a slice of `u64` with one value for each step of the cycle, in millionths of a vehicle, and a
//! contract sees it as a list of numbers. Cite `signal` of `specs/Green` first: the GO of a link by its green
//! in each step; `is_green` there is the test of one step, and `shown_of` the test without lags. `yielding` of
//! `specs/Green` is the GO that is left where the link gives way. Stages and intergreens are those of LR 253; lags,
//! the green through a shared intergreen and the rule of giving way are this project's own.
#![tactic(auto)]

mod giving_way;
mod green;
mod laws;
mod shown;
mod signals;

pub use giving_way::give_way;
pub use green::{fill_go, is_green};
pub use laws::worked_greens;

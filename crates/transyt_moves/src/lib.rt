//! The moves of a climb: the edits that it tries, in order.
//!
//! For each size of the climb plan, in order, and each node in card order the list has the offset moved by the size, on
//! and back, and then the same of the change of each stage, all round the cycle. Places of the list count from 0.
//! A contract cites `moves` of `specs/Moves`, or `move_count` and `move` there. The list itself is never made. It is
//! this project's own, after the hill climber of LR 253.
#![tactic(auto)]

mod laws;
mod listed;
mod nodes;

pub use laws::worked_moves;
pub use listed::{move_at, move_count};

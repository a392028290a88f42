//! Networks made of another: other starts of a climb, and other cycle times.
//!
//! [`start_net`] draws the offsets from a seed (`start_at` of `specs/Starts`). [`cycle_net`] puts the network on
//! another cycle time whose steps are as many seconds long, with stage lengths of equal saturation (`at_cycle` of
//! `specs/Cycles`). Each gives a valid network; `specs/Kept` says how much of the first network it keeps. All of it
//! is this project's own.
#![tactic(auto)]

mod bare;
mod cycle_time;
mod cycles;
mod fitting;
mod laws;
mod lengths;
mod node_stages;
mod start;
mod starts;

pub use cycles::{AtCycle, cycle_net};
pub use laws::{variants_keep, worked_cycles, worked_starts};
pub use starts::start_net;

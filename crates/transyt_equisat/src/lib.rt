//! Stage lengths of equal saturation: the plan of a node whose greatest degree of saturation is least.
//!
//! A contract sees the answer as the record `GreensValue` of `specs/Balance`. Cite first: `balance` there
//! for the whole answer, `degree` of `specs/Degrees` for the degree of a link at a green, `peak` of
//! `specs/Peaks` for that of a plan, and `IsPlanOf` there for the plans that are meant.
//! Everything here is this project's own.
#![tactic(auto)]

mod asked;
mod balancing;
mod counted_link;
mod demand;
mod fraction;
mod greens;
mod laws;
mod node_demand;
mod node_greens;
mod sharing;
mod stage_demand;
mod stage_greens;

pub use balancing::balance;
pub use greens::{Greens, Share};
pub use laws::{worked_balances, worked_peaks, worked_worth};

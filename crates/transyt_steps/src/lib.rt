//! A counter of work: one tick is one cell worked out.
//!
//! `Steps<L>` is seen as a number, the ticks so far. It takes no bytes and its calls do nothing when the
//! program runs: it stands for the proofs alone. Only `tick` changes it, and nothing copies it or sets it
//! back, so a function that is handed one and ensures `steps.new ≡ steps.old + k` worked out exactly k
//! cells. The parameter L names the ledger that the counter is kept in, and any ledger will do. A caller
//! that counts for itself takes a `Blank` and begins a counter of its own; one that doesn't count makes its
//! work a value with `Counting` and calls `uncounted`. A contract cites the number itself, `steps.old` and
//! `steps.new`. Everything here is this project's own.
#![tactic(auto)]

mod counter;
mod counting;

pub use counter::Steps;
pub use counting::{Counting, uncounted};

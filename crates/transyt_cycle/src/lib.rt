//! Steps round a cycle: the difference of two steps, and the step before a step.
//!
//! Steps are plain numbers, counted from 0, and a cycle of n steps begins again after step n - 1.
//! A contract cites `minus_mod` first, and `step_before` where it goes back step by step, both of
//! `specs/Cycle`. Their laws are the lemmas of `proofs/CycleLaws`. Everything here is this
//! project's own.
#![tactic(auto)]

mod before;
mod difference;
mod laws;

pub use before::step_before;
pub use difference::minus_mod;
pub use laws::worked_differences;

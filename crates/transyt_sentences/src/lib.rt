//! Sentences for a person: why a line was refused, and how to go on.
//!
//! The program writes them on standard error, beside the report. This crate has their wording alone: a refusal is worded
//! by its code and by what was found ([`Found`](transyt_syntax::Found)) where it was refused; whether a word is a keyword
//! of the other part of an input is asked of the cards and the commands. They are no part of a promise, so no clause speaks
//! of their words; rows show one for each code. A sentence is cut after 240 bytes.
#![tactic(auto)]

mod kind;
mod notes;
mod refusals;
mod sentence;

pub use notes::{on_audit, on_budget, on_certificate, on_cycle_times, on_refused_commands, on_row};
pub use refusals::{on_card, on_command};
pub use sentence::Sentence;

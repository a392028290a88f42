//! Answers to the lines of a run: those to commands over a session, their texts, and the report of a deck and its
//! commands as a definition.
//!
//! `specs/Commands` has the answer to a command, its text and the session after it, `specs/Refusals` the code of a
//! refused edit, `specs/Report` the report of an input as a fold over its lines, `specs/Steps` the rules that a step of a
//! climb keeps to. [`judge`] makes a line into an [`Answer`]; [`write_text`] writes it. A climb and a certificate are
//! written by `transyt_reporter`, over desks, the lines of a certificate by the calls here.
#![tactic(auto)]

mod answer;
mod answering;
mod certifying;
mod laws;
mod refusing;
mod writing;

pub use answer::Answer;
pub use answering::judge;
pub use certifying::{write_cert_end, write_cert_place};
pub use laws::{
    steps_are_work, steps_lower, worked_commands, worked_lowering, worked_reports, worked_trial,
};
pub use writing::{RefusedCard, print_accepted, print_card_refused, write_text};

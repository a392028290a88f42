//! The reporter: it answers the lines of a run, a deck and then the commands over desks, each before the next is read.
//!
//! The report is a definition of `transyt_line_answers`. `specs/Reporter` has what the reporter's lines have come to,
//! `specs/Brief` one climb on a network in one line.
//!
//! `workers` has the `Workers` that try moves, and the `AnswerWriter` that writes the answers with them; `opening` opens
//! their desks. The writer's methods stand by what they write: in `climbing` a climb by rounds of the desks, each step
//! before the next look, in `certifying` a certificate, one batch of places after another, in `writing` the answer to a
//! command, in `brief` one climb on a network in one line. `reporter` joins deck and session, and `running` is the loop.
#![tactic(auto)]

mod brief;
mod certifying;
mod climbing;
mod laws;
mod opening;
mod remarks;
mod reporter;
mod running;
mod workers;
mod writing;

pub use brief::write_brief;
pub use laws::worked_brief;
pub use running::run_deck;
pub use workers::Workers;

//! The program as one call: [`transyt`] takes words, a source, a sink, a gate and a counter of steps, and ends with a
//! [`Status`].
//!
//! With the words `run` it reads a deck and commands line by line and writes the report. A contract sees the report
//! as a function of the input's bytes: cite `report` and `status` of transyt_line_answers' `specs/Report` first, the
//! answers to the lines one after another over what the lines before them have come to. `Descends` of `specs/Reports`
//! says what a climb of the report is. What each word asks for is `task_of` of `specs/Words`: a report of an input,
//! or a text for which nothing is read. `Outcome` of transyt_outcome says what a run took, what it wrote and what
//! each status says of both.
//!
//! - `specs/Words` has the words, each with its spelling, its task and its steps. `specs/Numbers` has the numbers
//!   that words give, `specs/Tasks` the outcome of a run with a task. `word` reads the words, `town` serves `make`
//!   and `brief`, `top` is the call.
//! - `specs/Program` has the outcome of the program with its words. `program` is the run over any source and sink.
//!   `over` is that over a reader and a writer of std. `given` is that with the words that std answers, and `main`
//!   calls it. `telling` is the sink whose remarks go to standard error, `ending` the sentence on how the program
//!   ended. `version` names the program.
#![tactic(auto)]

mod bad_words;
mod ending;
mod given;
mod host_gate;
mod laws;
mod over;
mod program;
mod refusing;
mod telling;
mod top;
mod town;
mod version;
mod word;
mod worked;

pub use ending::{exit_of, sentence_of};
pub use given::{given_words, run_args};
pub use laws::{worked_ranges, worked_steps, worked_tasks, worked_words};
pub use over::run_over;
pub use program::{Call, run_program};
pub use refusing::refused_by_deck;
pub use top::transyt;
pub use transyt_desks::{Gate, OpenGate};
pub use transyt_line_answers::steps_lower;
pub use transyt_outcome::Status;
pub use version::VERSION;
pub use worked::{worked_calls, worked_climbs, worked_refusals, worked_runs};

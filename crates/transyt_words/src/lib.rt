//! The words that take their input whole: a deck, and what stands after it.
//!
//! A word is one module: what it asks for, and the lines of its answer. It is a [`DeckWord`], which answers a [`Case`],
//! a deck and the table after it, by an [`Answer`]: lines, each an [`AnswerLine`] of a form and its numbers, and a
//! network whose deck text comes after them, if there is one. A [`HostedWord`] has the word and what serves it: its
//! `judge_deck` answers an input, a refused deck by the line of its card, and its `answer_whole` takes a source to its
//! end and writes the answer to it.
//!
//! A contract sees the answer to an input as `answer_after` of `specs/Whole`, and what is reported of it as
//! `of_whole` of `specs/Answer`, a `Reporting` by which nothing is written and nothing ends the run before the input
//! was read to its end. `line_text` of `specs/Answer` is the text of a line. No answer names a number of workers.
//!
//! `counts`, `equisat`, `audit` and `scan` are the calculations of their crates, written in lines. `starts` climbs on a
//! deck's network from its own offsets and from drawn ones; `cycles` climbs on it at other cycle times, with steps of
//! the same length in seconds, each from equal saturation. Both write a table of the climbs as comment lines, a row
//! each and then the best, and after it the deck text of the network at the end of the best climb, so the whole
//! output is a deck again. All of this is this project's own.
#![tactic(auto)]

mod answer;
mod audit;
mod case;
mod counts;
mod cycles;
mod deck_word;
mod equisat;
mod hosted;
mod laws;
mod line;
mod scan;
mod starts;
mod table;
mod whole;

pub use answer::Answer;
pub use audit::AuditWord;
pub use case::Case;
pub use counts::CountsWord;
pub use cycles::CyclesWord;
pub use deck_word::DeckWord;
pub use equisat::EquisatWord;
pub use hosted::HostedWord;
pub use laws::{
    starts_in_parts, worked_answers, worked_asked, worked_table, worked_texts, worked_told,
};
pub use line::AnswerLine;
pub use starts::StartsWord;
pub use whole::say;

//! A line read as a keyword and numbers, for cards and for commands.
//!
//! The four faults that a line can have before its meaning is looked at are the codes 11 (longer than
//! 4,096 bytes), 10 (a byte that may not stand in a line, or an unknown keyword), 12 (a wrong count of
//! numbers) and 13 (a word that is no number), and the first of them in this order is answered; a number is a
//! word of 1 to 9 decimal digits. Codes and their order are this project's own. Cite
//! `Rattle.transyt_syntax.specs.Syntax.{syntax_code, numbers_of}` first, and for an order of tests
//! `Rattle.transyt_syntax.specs.Syntax.{first_found, when}`.
//!
//! The keywords and the counts of their numbers are the caller's: a table for cards, another for commands.
//! No call takes memory.
//!
//! A line is refused with a [`Refusal`]: its code, and what was found in it ([`Found`]). A contract sees the code alone;
//! what was found is told to a person.
#![tactic(auto)]

mod code;
mod found;
mod laws;
mod line;
mod numbers;
mod refusal;
mod words;

pub use code::Code;
pub use found::{Found, NumberRange, WordFront};
pub use laws::worked_lines;
pub use line::LineWords;
pub use numbers::{Further, Numbers};
pub use refusal::Refusal;
pub use words::is_word;

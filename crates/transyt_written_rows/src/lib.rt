//! Rows as they are written: texts, and what the program is run with and has to answer.
//!
//! The head of `stdin` of transyt_rows, the program that runs them, says how a row is written. It is a crate of its own so
//! that a change of the program's crates doesn't prove the reading of rows anew.
#![tactic(auto)]

mod content;
mod parts;
mod reader;
mod row;

pub use parts::{Ends, Failing, Part, Pieces, Said};
pub use reader::rows_of;
pub use row::Row;

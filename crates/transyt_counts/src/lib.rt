//! Tables of counts, as edits of the counted flows.
//!
//! A contract sees the answer as the record `CountsValue` of `specs/Counts`. Cite first: `records_of`
//! of `specs/Rows` for the rows of a table, `read_row` there for a row with its code, and of
//! `specs/Counts` `flow_of` for the flow of a key and `counts_of` for the whole answer. Everything here is this
//! project's own.
#![tactic(auto)]

mod counting;
mod counts;
mod key;
mod laws;
mod row;
mod tally;

pub use counting::read_counts;
pub use counts::{CountStop, Counts};
pub use laws::worked_counts;
pub use transyt_syntax::Code;

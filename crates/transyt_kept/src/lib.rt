//! The rows of an evaluation, with a mark: rows that are written one by one, and can all go back to those of the mark.
//!
//! `Rows` are seen as the record `KeptValue` of `specs/Marked`: the rows now and, while a mark is open, the rows that
//! were there when it was set. Either are a `RowsValue` of `specs/Rows`, whose lists are lists of rows: the departures
//! of each link at each sweep, and all of the last sweep. Cite `out_at` there for a row and `CellValue` of `specs/Cell`
//! for all of one link. A write changes the rows now at one place and nothing else; `restore` gives the rows of the
//! mark.
//!
//! Memory has two versions of each row, and two bits tell which of them is the row now and which is the row of the
//! mark. A write goes to the version that isn't the mark's. So nothing is saved or given back: a mark is set by
//! copying bits, and taken back by copying them the other way. No clause outside names a version.
//!
//! Nothing here knows of networks: how rows come about, `transyt_sweep` says. That a link has profiles which repeat
//! each cycle is from LR 253; marks and versions are this project's own.
//!
//! - `specs/Cell` is all of a link at a sweep. `specs/Rows` has the rows as one record, with each read and write.
//!   `specs/Marked` has the rows with a mark: `Rows` are seen as the rows now and, while a mark is open, the rows of
//!   the mark.
//! - That departures are below 2^30 is the invariant of `Rows`. So a read asks for nothing, and a write asks for the
//!   bound.
//! - Each row has two versions in memory, side by side in one piece, and two bits: one tells which version is the row
//!   now, the other which is the row of the mark (`src/slots.rt`). A write goes to the version that isn't the mark's. A
//!   mark is set by copying bits, and taken back by copying them the other way, so no row is copied for it.
//! - A `Table` (`src/table.rt`) is seen as the rows now and those at the mark; departures, arrivals, GO and queues are
//!   one each, and figures a table of their own (`src/figure_table.rt`). That all of it is within memory is a fact of
//!   its size (`src/size.rt`). `specs/Versions` has the versions, and no other crate knows of them;
//!   `proofs/VersionLaws` has the one step of all writes.
#![tactic(auto)]

mod figure_table;
mod laws;
mod rows;
mod size;
mod slots;
mod table;

pub use laws::worked_rows;
pub use rows::Rows;
pub use size::Size;

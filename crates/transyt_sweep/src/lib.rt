//! The sweeps: each link worked out at each sweep, one after another, and the rows that this gives.
//!
//! The rows are `Rows` of `transyt_kept`, with the calls of `RowsOfNetwork`. A `Scratch` is seen as the `CellValue` of
//! `specs/Cell`: all of one link at one sweep. Profiles are in millionths of a vehicle per step. Cite first: `out_of`
//! of `specs/Sweeps` for the departures of a link at a sweep, `evaluated` and `index` there for the evaluation,
//! `cell_by` of `specs/Cell` for one link's work from the departures that it reads, and `AreEvaluation` of
//! `specs/Front`. `climb` of `specs/Climb` is what a climb over the moves of `transyt_moves` comes to, and `tried_at`
//! what a try of one move finds; no code of them stands here.
//!
//! The histograms of LR 253 are worked out link by link; the sweeps, their uniform start and which sweep a link reads
//! are this project's own.
//!
//! - `specs/Cell` is one link's work from the departures that it reads, which are a function of a link's place.
//!   `specs/Sweeps` has the evaluation, by recursion on the sweep. `specs/Reading` has the rows that a link reads,
//!   and a link weighed anew. `specs/Opened` has the rows of a network when they are opened, `specs/Front` the rows
//!   while the links are worked out one after another, `specs/Climb` tries, searches and climbs.
//! - `Rows` know no network. The calls that take one, or the work on one of its links, are the trait `RowsOfNetwork`
//!   (`src/rows.rt`): rows are opened, a link is started, placed at a sweep or weighed anew.
//! - `cell_by` is a link's cell by the departures that are read: those of the evaluation, of the rows, or of the
//!   definition's own recursion. That departures are below 2^30 is the invariant of `Scratch` too, so no call asks
//!   for it.
//! - A `Scratch` keeps for each feed the numbers that were worked out of it last (`specs/Inflow`): the feed's part of
//!   its feeder's flow, and its travel. Each entry names the feed's numbers for which it is right, and a cell takes
//!   it where they are the feed's own. So a scratch isn't told of edits.
//! - The rows of a cell are one type, `CellRows` (`src/cell_rows.rt`), which says of itself that they have one length
//!   and how large their values are. So the three calls that fill them in ask for little, and a `Scratch` adds only
//!   what holds between rows and figures.
//! - The figures of a `Scratch` are seen as those that its rows give. They are worked out only when a caller asks for
//!   them, from its rows and from the sums of arrivals and GO: `Rows` keeps the figures of the last sweep alone.
//! - The network, the rows, the link and the sweep of one cell go from call to call as one value (`src/inputs.rt`),
//!   whose ghost fields say that they fit. So do a feed with its feeder (`src/source.rt`) and the feeds of a link
//!   (`src/feeds.rt`).
#![tactic(auto)]

mod cell_rows;
mod factors;
mod feeds;
mod figures;
mod inflow;
mod inputs;
mod laws;
mod renewing;
mod rows;
mod scratch;
mod sending;
mod source;
mod sweep;
mod whole;
mod working;

pub use figures::reweigh;
pub use laws::{
    rule_of_climbs, rule_of_departures, rule_of_evaluation, rule_of_sweeps, worked_climbs,
    worked_figures, worked_links, worked_reading, worked_sweeps,
};
pub use rows::RowsOfNetwork;
pub use scratch::{FACTOR_BYTES, Scratch};
pub use transyt_kept::Rows;
pub use whole::full;
pub use working::cell;

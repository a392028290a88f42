//! Climbs of a list of networks at once, for the words that compare plans.
//!
//! A word that compares plans asks for networks that are made out of a deck's: [`NetworkList`] says how many, the number of
//! each, and the network at a place or why there is none. [`climb_networks`] climbs each once by its own climb plan and
//! makes the table, a row each. It goes by batches, after each of which a sink is told how far the run is. The places of a
//! batch are dealt to workers who climb at once by std's fork and join; each climb has a network, a session and a counter
//! of steps of its own, which its branch makes between entering and leaving a [`ClimbGate`]. [`best`] finds the first row with the least index at its
//! end, and [`Work::end_at`] climbs once more for the network at the end.
//! [`CycleTimes`] are cycle times by a step, for the words that ask for such. [`scan`] makes the table of the climbs at
//! such cycle times where the network with that cycle is climbed once and all else of it stays, offsets and changes in
//! steps; [`least`] finds its best row. All of this is this project's own.
//!
//! `table` of `specs/Climbs` is the table of a network. It names no number of workers, so it is the same for all of
//! them. Each row's climb is `own_climb` there, the climb as it is defined for CLIMB. `table` of `specs/Scan` is that of
//! [`scan`]. That two climbs are under way at once is no clause's matter: a test shows it.
#![tactic(auto)]

mod batching;
mod climbing;
mod deal;
mod dealing;
mod gate;
mod laws;
mod networks;
mod progress;
mod ranking;
mod row;
mod scan_best;
mod scan_laws;
mod scan_list;
mod scan_row;
mod scan_word;
mod scanning;
mod table;
mod times;
mod work;

pub use gate::{ClimbGate, ClimbGate as Bench, IdleGate};
pub use laws::{worked_best, worked_rows, worked_times};
pub use networks::{NetworkAt, NetworkList};
pub use ranking::{BestRow, best};
pub use row::{Climbed, NetworkRow};
pub use scan_best::least;
pub use scan_laws::{worked_least, worked_scan, worked_scan_row};
pub use scan_list::ScanList;
pub use scan_row::ScanRow;
pub use scan_word::ScanWord;
pub use scanning::{scan, scan_told};
pub use table::climb_networks;
pub use times::CycleTimes;
pub use work::Work;

#[cfg(test)]
mod tests;

//! The figures of a link: its delay, its stops and its share of the performance index.
//!
//! `Terms` are the sums over a cycle that one link's evaluation leaves, in millionths of a vehicle, with the
//! numbers of the network that weigh them. `Figures` follow from them: delay as a mean number of vehicles that
//! stand, and stops per second, both in millionths. A contract sees both as the record of their fields.
//! Cite `figures` of `specs/Figures` first, and `index_of` for the index alone. That uniform delay is the mean queue,
//! and that the index weighs delay and stops, is from LR 253; the random delay is after the sheared form of later
//! versions, and the scales and each rounding are this project's own.

#![tactic(auto)]

mod figures;
mod index;
mod laws;
mod random;
mod terms;

pub use figures::{Figures, figures_of};
pub use index::weigh;
pub use laws::worked_links;
pub use terms::{Terms, TermsFrame};

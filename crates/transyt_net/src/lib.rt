//! The network of signals: its draft, its edits and its copies.
//!
//! The parts are those of `transyt_parts`, which this crate hands on. A contract sees a network as
//! the record `Network` of `specs/Parts`: its frame, its nodes and links in card order, and its
//! climb plan. The sets of numbers, which are those of `indexmap` and give each its place, and the
//! totals, which keep the total flow of each link, are seen by no public clause. Cite first:
//! `IsValid` of `specs/Valid` for what always holds of a `Net`, `numbered` and `on_numbered` there
//! for the part of a number, `perstep` and `SameShape` of `specs/Parts`, `node_fault` and its like
//! of `specs/Faults` for a `Draft`, `Refuses` there for the answers of its calls, `with_edit` and
//! `inverse` of `specs/Edits`, and `edit_fault` of `specs/EditFaults`.
//!
//! Networks of such parts are those of Robertson's TRANSYT (LR 253); drafts, edits and all limits
//! are this project's own.
//!
//! - A `Net` and a `Draft` keep vectors, two sets of card numbers (`IndexSet` of `indexmap`), which give each number
//!   its place, and the total flow of each link. No public clause speaks of these sets and the totals.
//! - A draft's invariant is validity, except for the stage plans. Each call that adds a part has three things: a
//!   definition of its first fault, a private method that computes this fault, and a definition of the network after
//!   the call.
#![tactic(auto)]

mod both;
mod draft;
mod edit;
mod laws;
mod net;
mod places;

pub use draft::{Draft, DraftFault};
pub use edit::{Edit, EditFault};
pub use laws::{drafts_are_judged, edits_are_judged, worked_networks};
pub use net::Net;
pub use transyt_parts::{
    ClimbPlan, Feed, Frame, GiveWay, Link, NewLink, Node, PlanFault, Stage, Weights, stage_length,
};

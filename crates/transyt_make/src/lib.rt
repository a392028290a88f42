//! Towns made from a seed: networks for tests and for speed.
//!
//! [`make_net`] gives the network `made seed nodes` of `specs/Made`: junctions in rows of eight, each with two stages
//! and four links, fed by its neighbours. Its numbers are draws of a linear congruence, `draw seed k a` of
//! `specs/Draws` for the k-th of them: first two for each node, then one for each link, then four for each link that
//! has a neighbour. That the network is valid for every seed and every number of nodes is proved by the calls of the
//! draft, none of which has a fault. [`Draws`] hands the draws out one after another. All of it is this project's own;
//! the multiplier is the one of the C standard's example.
#![tactic(auto)]

mod approach;
mod draws;
mod feeds;
mod granted;
mod junction;
mod laws;
mod links;
mod making;
mod nodes;
mod three_feeds;
mod town;
mod works;

pub use draws::Draws;
pub use laws::worked_towns;
pub use making::make_net;

//! Desks: several sessions that try the moves of one climb at once.
//!
//! A round deals the next moves of the list out to the desks, one after another in turn, by std's fork and join; each
//! desk tries its moves on a session of its own, with memory taken when the desks were opened. The first of all in the
//! order of the list that lowers the index is made at desk 0, and what was tried after it is forgotten. So a round is
//! so many turns of one worker, and a climb by rounds is the climb, whatever the number of workers. In a climb desk 0
//! goes on alone for a while after a step, and the other desks are left behind until they try again; the longer no move
//! lowers the index, the more moves a round has, and the more desks try. All of this is this project's own.
//!
//! A contract sees desks as the list of their sessions, desk 0 first. `IsRound` of transyt_climb is what a round does to
//! the climber and desk 0, and `turns_of` of `specs/Rounds` its number of turns. That several desks are at work at once
//! is no clause's matter: a test shows it.
//!
//! - `specs/Desks` has desks as the list of their sessions. `specs/Stretches` has the moves up to the first that
//!   lowers the index, and what a desk finds (`TryResults`): the results of the tries that it took back, and the move
//!   that it made, if any. `specs/Rounds` has the number of places that are tried, and the number of turns that a
//!   round is.
//! - `Desks` has the session of desk 0 (`zero`), and a crew that tries moves while `zero` is read: the other desks,
//!   and one session more before them, which no clause sees. With one desk there is no crew. `in_step` notes how many
//!   of the first of the crew are known to stand for the network of desk 0; networks are compared only where that
//!   isn't known.
//! - In one fork each of the crew that tries comes to the network of desk 0 (`follow`) and then tries the moves of a
//!   `Job` that come to it in turn, its `Attempt`. It makes the first that brings the index below desk 0's, and tries no
//!   more. The caller makes all threads itself before it tries as the first of the crew. What they found is read in the list's
//!   order, up to the first move that was made (`first_made`), and desk 0 trades networks with the desk that made it
//!   (`Session::trade`). Then the turns are counted (`together`): those that pass, and the step.
//! - `proofs/CrewLaws` has what the first of a crew share with all of it, and `proofs/BatchLaws` what those come to
//!   that have tried moves. `try_moves` hands on the results of consecutive moves as they are, and makes none.
//!   `policy` says when desks try together, how many of them, and how many places each (`Split`). A `Gate` may say
//!   how many desks it lets in at once; the program's lets in as many as there are processors (`HostGate` of
//!   `transyt`).
#![tactic(auto)]

mod batch;
mod climbing;
mod crew;
mod desk;
mod desk_count;
mod desks;
mod equal;
mod gate;
mod job;
mod laws;
mod policy;
mod results;
mod rounds;
mod runner;
mod split;
mod stretch;
mod trying;
mod turns;

pub use climbing::climb_by_rounds;
pub use desks::Desks;
pub use gate::{Gate, OpenGate};
pub use laws::{worked_desks, worked_rounds};
pub use turns::Round;

#[cfg(test)]
mod tests;

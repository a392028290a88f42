//! A session: a network under edits with its evaluation, one trial at a time, and the work so far.
//!
//! An edit works out anew only what is due. A trial is a run of edits that can be taken back: the network, its rows and
//! its index are then those from before, without memory and without a step, and only the work stays.
//!
//! A contract sees a session as `SessionValue` of `specs/Session`: the network now, the network before the open trial or
//! none, and the work so far. Each call is one equation there, as `edited`, `trial_of`, `back_of` and `keep_of`. Sessions
//! are this project's own.
#![tactic(auto)]

mod answers;
mod laws;
mod session;

pub use answers::{NoTrial, Reply, TrialOpen, Tried};
pub use laws::worked_session;
pub use session::Session;

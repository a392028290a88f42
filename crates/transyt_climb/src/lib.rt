//! The climb: a session's network, and each lowering move in its turn.
//!
//! A `Climber` goes round the list of moves. A turn looks at one place: a move that is allowed and lowers the index is
//! made, and any other is passed. It ends as `Local` when a whole round of the list lowers nothing, and as `Budget`
//! when as many places were looked at as the climb plan allows. The hill climber is LR 253's; the order of its moves,
//! the budget and the place after a step are this project's own.
//!
//! A contract sees a climber as its five counters, and climber and session together as a `Machine`: `answer_of` and
//! `turned` of `specs/Turns` are a turn, and `turns` is n of them. `IsUnderWay` and `IsOver` of `specs/Way` say how far
//! a climb has come, and `rule_of_way` how they go on. The climb itself is `climb` of transyt_sweep, which knows no
//! counters; `rule_of_turns` says that the turns are that climb.
//!
//! A turn is `answer_of` and `turned`. `IsUnderWay` and `IsOver` carry a climb from its start to its end, turn by
//! turn or round by round. `HasCome` is the whole of a climb as the steps done and the climb left.
#![tactic(auto)]

mod certifying;
mod climber;
mod climbing;
mod laws;
mod turn;

pub use certifying::certify;
pub use climber::Climber;
pub use climbing::{Ended, climb_on};
pub use laws::{rule_of_local, rule_of_turns, rule_of_way, worked_local, worked_turns};
pub use transyt_moves::{move_at, move_count};
pub use turn::Turn;

//! The model's formulas over profiles: histograms over the cycle, platoons on their way, the stop line.
//!
//! A profile has one value for each step of the cycle, in millionths of a vehicle per step. It is a slice of `u64`, and a
//! contract sees it as a list of numbers; std's `sum` is its total over the cycle.
//!
//! - **Profiles**: `uniform`, `added`, `folded` and `shared` of `specs/Profile` give a profile. Cite `added` first. Each
//!   call that fills a profile also says how large its values can be, as the next call asks.
//! - **Platoons**: cite `dispersed` of `specs/Platoon` first: the profile that arrives, as a function of the one that sets
//!   out, and `travel_steps`, the travel time in steps. Of a `Platoon`, which names its link's departures and the part of
//!   them that goes on, `arriving` of `specs/Arriving` is the same; `disperse_together` adds up to four of them in one
//!   pass.
//! - **The stop line**: cite `queues` and `outs` of `specs/StopLine` first: the queue of a cycle that repeats for ever, by
//!   the sums over the last steps. `arrivals_of` and `stopped_of` there stand before and after it.
//!
//! What travels together is a type that says of itself how its numbers hang together: `Flow` at the stop line, `Spread`,
//! `Part`, `Travel`, `Platoon` and `Group` on the way. So the calls that take one ask for little more than lengths.
//!
//! Profiles, the recurrence of dispersion and that of the queue are LR 253's; the unit, each rounding, the cut, the queue
//! without a start and the count of stops are this project's own.

#![tactic(auto)]

mod abreast;
mod adding;
mod comparing;
mod cut_totals;
mod cutting;
mod dispersion;
mod filling;
mod flow;
mod group;
mod laws;
mod mixer;
mod passing;
mod platoon;
mod platoon_laws;
mod queueing;
mod readying;
mod scaling;
mod shares;
mod sharing;
mod spread;
mod start;
mod stopline_laws;
mod stops;
mod together;
mod totals;
mod travel;

pub use adding::{add_into, add_to_first, fold_into};
pub use comparing::same;
pub use cut_totals::Totals;
pub use cutting::{cut, cut_arrivals};
pub use dispersion::disperse;
pub use filling::{fill_uniform, start_turns};
pub use flow::Flow;
pub use group::Group;
pub use laws::worked_profiles;
pub use platoon::Platoon;
pub use platoon_laws::worked_platoons;
pub use queueing::queue;
pub use sharing::{Part, part_of, share_into, share_part};
pub use spread::Spread;
pub use stopline_laws::{one_queue, worked_cycles, worked_facts_of_queues};
pub use stops::stopped;
pub use together::disperse_together;
pub use totals::total;
pub use travel::{Travel, travel_of, travel_steps};

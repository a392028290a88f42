//! The texts that a run writes of its network: INDEX, LINKS, FIGURES, TIMING, PROFILE, QUEUE, CHART, PLOT and WORK, and
//! the lines of a climb and of a certificate.
//!
//! `specs/Texts` has the text of each report over the network and the work so far, `report_text net work what`, and
//! the lines of a climb; those of a certificate are of `transyt_audit`. [`show`] writes a report of a
//! session, and says so by `Prints` of `transyt_io`. The figures of FIGURES are values too, by `specs/Measures`:
//! [`link_figures`] of a [`SessionLink`] and [`network_figures`] of a session.
//!
//! `specs/Plot` has the character plot of a link, `plot_text`: a first line with the greatest value of the link's three
//! profiles, in millionths of a vehicle, and a line for each step of the cycle, whose three fields are bars of up to 20
//! letters for that value. [`plot`] writes it. All texts are this project's own.
#![tactic(auto)]

mod charting;
mod field;
mod figures;
mod laws;
mod measures;
mod moves;
mod plot_laws;
mod plotting;
mod session_link;
mod showing;
mod timing;
mod totals;

pub use laws::{worked_charts, worked_measures, worked_reports, worked_texts};
pub use measures::{LinkFigures, greatest, link_figures};
pub use moves::{cert_line, end_line, move_line, took_line};
pub use plot_laws::{worked_link, worked_plots};
pub use plotting::plot;
pub use session_link::SessionLink;
pub use showing::{Report, show};
pub use totals::{NetworkFigures, network_figures};

//! The certificate of a network, line by line, and its audit: whether given lines prove that no listed move lowers the
//! network's index.
//!
//! A certificate has a line for each place of the list of moves, with the index of the network with that move made, or
//! BARRED, and a last line with the number of places and the network's index. A contract cites `cert_lines` and
//! `cert_text` of `specs/Certificate` for the whole, and `move_words`, `end_words` and `joined` there for a
//! line: an audit compares words.
//!
//! The audit lists the moves itself and evaluates each network from nothing, with no rows kept, so a certificate that
//! another part of the program wrote is checked by a way of its own. A contract cites `verdict` of `specs/Verdict`, and
//! `given_from`, `first_wrong`, `first_missing` and `first_lower` there for its parts. Both are this project's own.
#![tactic(auto)]

mod auditing;
mod cert_laws;
mod laws;
mod line;
mod truth;
mod verdict;
mod words;

pub use auditing::audit;
pub use cert_laws::{certificate_reads_back, worked_lines};
pub use laws::{rule_of_own_text, rule_of_yes, worked_verdicts};
pub use line::{put_end, put_move};
pub use transyt_syntax::Code;
pub use verdict::Verdict;

//! The verdict of an audit.

use transyt_syntax::Code;

/// The verdict of an audit.
#[derive(Clone, Copy, PartialEq, Eq)]
pub enum Verdict {
    /// Each line is the true one, all are there, and no listed move that is allowed lowers the index: how many places
    /// the list of moves has, and the index of the network.
    Yes { places: u32, index: u128 },
    /// The certificate doesn't stand: the number of the line that shows it, and the code, which is that of a deck
    /// without a climb plan (26), of a line that isn't the certificate's (28) or of a move that lowers the index (29).
    No { line: u32, code: Code },
}

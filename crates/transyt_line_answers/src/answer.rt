//! The answer to a line after END.
ghost use Rattle.std.specs.Prelude.{◌≡◌};
ghost use Rattle.transyt_line_answers.specs.Report.{answer_ends};

use transyt_outcome::Ending;
use transyt_report::Report;
use transyt_syntax::Refusal;

/// The answer to a line after END.
#[derive(Drop)]
pub enum Answer {
    /// A comment or a blank line: nothing is written.
    Nothing,
    /// STOP: nothing is written, and the run ends.
    Stop,
    /// An edit, a TRIAL, a BACK or a KEEP was carried out.
    Done,
    /// The command is refused and changes nothing.
    Refused(Refusal),
    /// A report.
    Show(Report),
    /// The plot of the link at a place, in card order from 0.
    Plot(usize),
    /// The deck text of the network.
    Deck,
    /// A climb by the network's plan.
    Climb,
    /// The index with each listed move.
    Cert,
}

impl Answer {
    /// How it ends the run, if it does.
    pub fn ending(&self) -> Option<Ending>
        ensures { result ≡ answer_ends self.now }
    {
        match self {
            Answer::Stop => Some(Ending::Stopped),
            _ => None,
        }
    }
}

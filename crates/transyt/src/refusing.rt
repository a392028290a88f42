//! When a run is refused.
ghost use Rattle.std.specs.Prelude.{ℕ, List};
ghost use Rattle.transyt_line_answers.specs.Report.{status};
ghost use Rattle.transyt.specs.Reports.{IsRefusedByDeck};

/// The run of an input is refused exactly where the deck of the input's lines is refused, or still open at their end.
#[tactic(auto, using(crate::proofs::Refusals::refused_by_deck))]
pub fn refused_by_deck()
    ensures { (input : List ℕ) → IsRefusedByDeck (status input) input }
{}

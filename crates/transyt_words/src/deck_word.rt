//! A word that takes a deck and what stands after it.

ghost use Rattle.std.specs.Prelude.{◌≡◌, ◌≤◌, ◌+◌, ℕ, IfOk};
ghost use Rattle.std.specs.Thread.{IsSync};
ghost use Rattle.transyt_words.specs.Answer.{AnswerValue};
ghost use Rattle.transyt_words.specs.Case.{CaseValue};
ghost use Rattle.transyt_words.specs.Whole.{ReadsBack};

use crate::answer::Answer;
use crate::case::Case;
use std::alloc::AllocError;
use std::sync::ledger::Ledger;
use std::thread::Threads;
use transyt_io::Sink;
use transyt_steps::Steps;

/// A word that takes a deck and what stands after it.
pub trait DeckWord {
    /// The numbers that it asks for are in their ranges.
    ghost fits: { Self → Type 0 };

    /// The answer to a case.
    ghost answer: { Self → CaseValue → AnswerValue };

    /// How many steps it takes at most.
    ghost most: { Self → CaseValue → ℕ };

    /// Answers a case. All memory for the answer is taken here. The sink is told how far a long word is, and nothing is
    /// written.
    fn judge<R: Threads + Sync, K: Sink, L: Ledger>(
        &self,
        case: &Case<'_, R>,
        sink: &mut K,
        steps: &mut Steps<L>,
    ) -> Result<Answer, AllocError>
        requires shared { IsSync R.row }
        requires fits { fits self.now }
        ensures answer { IfOk result (λ found. found ≡ answer self.now case.now) }
        ensures reads_back { IfOk result ReadsBack }
        ensures written { K.written sink.new ≡ K.written sink.old }
        ensures faults { K.faults sink.new ≡ K.faults sink.old }
        ensures steps { steps.new ≤ steps.old + most self.now case.now }
        ensures more_steps { steps.old ≤ steps.new };
}

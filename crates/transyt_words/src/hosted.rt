//! A word with its host, which answers an input.

ghost use Rattle.std.specs.Prelude.{◌≡◌, ◌≤◌, ◌+◌, drop, length, IfOk};
ghost use Rattle.transyt_words.specs.Whole.{answer_after, most_after, ReadsBack};

use crate::answer::Answer;
use crate::case::Case;
use crate::deck_word::DeckWord;
use crate::line::{AnswerLine, one};
use std::alloc::{AllocError, Global};
use std::sync::ledger::Ledger;
use std::thread::Threads;
use transyt_deck::{CardStop, cut_deck};
use transyt_io::Sink;
use transyt_sentences::on_card;
use transyt_steps::Steps;

/// A word, with the runtime and the allocator that it is handed.
#[derive(Drop)]
pub struct HostedWord<'a, R, W> {
    /// The runtime, whose threads climb at once.
    pub rt: &'a R,
    /// The allocator.
    pub alloc: Global,
    /// The word.
    pub word: W,
}

/// The bytes after the first ones, of which there are so many.
fn bytes_from(input: &[u8], rest: usize) -> &[u8]
    requires { rest ≤ length input.now }
    ensures { result.now ≡ drop rest input.now }
{
    &input[rest..]
}

impl<'a, R: Threads + Sync, W: DeckWord> HostedWord<'a, R, W> {
    /// Answers an input: by the word where there is a deck at its front, and else by the line of the refused card.
    ///
    /// All memory for the answer is taken here, that of each climb too. The sink is told how far a long word is, and
    /// nothing is written. The deck text of an answer, if it has one, reads back as its network.
    pub fn judge_deck<K: Sink, L: Ledger>(
        &self,
        input: &[u8],
        sink: &mut K,
        steps: &mut Steps<L>,
    ) -> Result<Answer, AllocError>
        requires fits { W.fits self.now.word }
        requires few { length input.now ≤ 4194304 }
        ensures answer { IfOk result
            (λ found. found ≡ answer_after (W.answer self.now.word) input.now) }
        ensures reads_back { IfOk result ReadsBack }
        ensures written { K.written sink.new ≡ K.written sink.old }
        ensures faults { K.faults sink.new ≡ K.faults sink.old }
        ensures steps { steps.new
            ≤ steps.old + most_after (W.most self.now.word) input.now }
        ensures more_steps { steps.old ≤ steps.new }
    {
        match cut_deck(self.alloc, input) {
            Ok(cut) => {
                let case = Case {
                    rt: self.rt,
                    alloc: self.alloc,
                    table: bytes_from(input, cut.rest),
                    cut,
                };
                let found = self.word.judge(&case, sink, steps);
                drop(case);
                found
            }
            Err(CardStop::Refused { card, code }) => {
                let lines = one(self.alloc, AnswerLine::refused_card(card, code.code()))?;
                Ok(Answer::refusal(lines).with_remark(on_card(card, &code)))
            }
            Err(CardStop::Memory) => Err(AllocError),
        }
    }
}

//! The answer to a whole input.
ghost use Rattle.std.specs.Prelude.{◌≡◌, true, false, None, Some};
ghost use Rattle.std.specs.Option.{option_map};

use crate::line::AnswerLine;
use std::marker::Model;
use transyt_net::Net;
use transyt_sentences::Sentence;

/// The answer to a whole input: the lines that are written, the network whose deck text is written after them, if there
/// is one, and whether the input is refused; and a sentence for standard error, which a contract doesn't see.
#[derive(Drop)]
pub struct Answer {
    lines: Vec<AnswerLine>,
    deck: Option<Net>,
    refused: bool,
    remark: Option<Sentence>,
}

impl Model for Answer {
    ghost use Rattle.transyt_words.specs.Answer.{AnswerValue};

    ghost Value = { AnswerValue };

    ghost view = { λ answer. record { lines = answer.lines.items; deck = answer.deck; refused = answer.refused } };
}

impl Answer {
    ghost use Rattle.transyt_words.specs.Answer.{done, refusal, with_deck};

    /// Lines of an input that is not refused.
    pub fn done(lines: Vec<AnswerLine>) -> Answer
        ensures { result ≡ done lines.items }
    {
        Answer::with_deck(lines, None)
    }

    /// Lines of an input that is not refused, and the deck text of a network after them, if there is one.
    pub fn with_deck(lines: Vec<AnswerLine>, deck: Option<Net>) -> Answer
        ensures { result ≡ with_deck lines.items deck }
    {
        Answer {
            lines,
            deck,
            refused: false,
            remark: None,
        }
    }

    /// Lines of an input that is refused.
    pub fn refusal(lines: Vec<AnswerLine>) -> Answer
        ensures { result ≡ refusal lines.items }
    {
        Answer {
            lines,
            deck: None,
            refused: true,
            remark: None,
        }
    }

    /// The same answer, with a sentence for standard error.
    pub fn with_remark(self, sentence: Sentence) -> Answer
        ensures { result ≡ self }
    {
        Answer {
            remark: Some(sentence),
            ..self
        }
    }

    /// The sentence for standard error, if there is one.
    pub fn remark(&self) -> Option<&Sentence> {
        self.remark.as_ref()
    }

    /// The lines that are written.
    pub fn lines(&self) -> &[AnswerLine]
        ensures { result.now ≡ self.now.lines }
    {
        &self.lines
    }

    /// The network whose deck text is written after the lines, if there is one.
    pub fn deck(&self) -> Option<&Net>
        ensures { option_map (λ net. net.now) result ≡ self.now.deck }
    {
        self.deck.as_ref()
    }

    /// Whether the input is refused.
    pub fn is_refused(&self) -> bool
        ensures { result ≡ self.now.refused }
    {
        self.refused
    }
}

//! The reporter: it answers the lines of a deck and of its commands.
ghost use Rattle.std.specs.Prelude.{◌≡◌, ◌≤◌, ◌<◌, ◌+◌, true, None, Some, Ok, IfOk, OnOk, OnErr, IsErrOf, IsTrue};
ghost use Rattle.transyt_outcome.specs.Runs.{EndAnswered, LineAnswered};
ghost use Rattle.transyt_io.specs.Streams.{AddsFront, Rose};
ghost use Rattle.transyt_deck.specs.Deck.{next, is_complete, line_count};
ghost use Rattle.transyt_reporter.specs.Conditions.{AnswersDeck};
ghost use Rattle.transyt_line_answers.specs.Report.{deck_answering};
ghost use Rattle.transyt_line_answers.specs.Report.{line_steps, line_text, run_of, text_at_end};
ghost use Rattle.transyt_reporter.specs.Reporter.{IsLive, state_of, new_reporter};

use crate::remarks::remark_card;
use crate::workers::{AnswerWriter, Workers};
use std::alloc::{AllocError, Global};
use std::marker::Model;
use std::mem;
use std::sync::ledger::Ledger;
use std::thread::Threads;
use transyt_deck::{CardReader, CardStop, Progress};
use transyt_desks::{Desks, Gate};
use transyt_io::{Failed, Sink};
use transyt_line_answers::{RefusedCard, print_accepted, print_card_refused};
use transyt_outcome::{Ending, Stop};
use transyt_steps::Steps;
use transyt_syntax::{Code, Refusal};

/// Answers the lines of a deck and, from END on, the commands over desks for so many workers.
///
/// A contract sees how many workers and lines there are, the reader of cards, and from END on the sessions of the desks.
#[derive(Drop)]
pub(crate) struct Reporter<'a, R, G> {
    alloc: Global,
    lines: u32,
    cards: CardReader,
    desks: Option<Desks>,
    writer: AnswerWriter<'a, R, G>,
}

impl<'a, R, G> Model for Reporter<'a, R, G> {
    ghost use Rattle.transyt_reporter.specs.Reporter.{ReporterValue, IsReporter, reporter_of};

    ghost Value = { ReporterValue };

    ghost view = { λ r. reporter_of r.writer.workers.count r.lines r.cards r.desks };

    ghost invariant = { λ r. IsReporter
        (reporter_of r.writer.workers.count r.lines r.cards r.desks) };
}

impl<'a, R, G> Reporter<'a, R, G> {
    /// No line came. The memory for writing is taken here.
    #[inline(never)]
    pub(crate) fn open(
        alloc: Global,
        workers: Workers<'a, R, G>,
    ) -> Result<Reporter<'a, R, G>, AllocError>
        ensures value { IfOk result (λ r. r ≡ new_reporter workers.entry.count) }
    {
        let writer = AnswerWriter::open(alloc, workers)?;
        Ok(Reporter {
            alloc,
            lines: 0,
            cards: CardReader::new(alloc),
            desks: None,
            writer,
        })
    }

    /// Answers a line before END or END.
    fn answer_card<K: Sink, L: Ledger>(
        &mut self,
        line: &[u8],
        sink: &mut K,
        steps: &mut Steps<L>,
    ) -> Result<Option<Ending>, Stop>
        requires closed { self.old.desks ≡ None }
        requires live { self.old.cards.live ≡ true }
        requires room { line_count self.old.cards.deck < 4294967294 }
        requires counted { line_count self.old.cards.deck < self.old.lines }
        ensures answers { AnswersDeck (next self.old.cards.deck line.now) result
            (K.written sink.old)
            (K.written sink.new) (K.faults sink.old) (K.faults sink.new) steps.old steps.new }
        ensures silent { IsErrOf result Stop.Memory → sink.new ≡ sink.old }
        ensures state { result ≡ Ok None
            → state_of self.new ≡ run_of (next self.old.cards.deck line.now) }
        ensures live { result ≡ Ok None → IsLive self.new }
        ensures lines { self.new.lines ≡ self.old.lines }
        ensures workers { self.new.workers ≡ self.old.workers }
    {
        match self.cards.take(line) {
            Ok(Progress::More) => Ok(None),
            Ok(Progress::Complete) => self.complete(sink, steps),
            Err(CardStop::Refused { card, code }) => {
                let refused = RefusedCard {
                    card,
                    refusal: code,
                };
                remark_card(&refused, sink);
                match print_card_refused(&refused, &mut self.writer.line, sink) {
                    Ok(()) => Ok(Some(Ending::Refused)),
                    Err(Failed) => Err(Stop::Write),
                }
            }
            Err(CardStop::Memory) => Err(Stop::Memory),
        }
    }

    /// Opens the desks of an accepted END, and then writes its line.
    fn complete<K: Sink, L: Ledger>(
        &mut self,
        sink: &mut K,
        steps: &mut Steps<L>,
    ) -> Result<Option<Ending>, Stop>
        requires closed { self.old.desks ≡ None }
        requires complete { IsTrue (is_complete self.old.cards.deck) }
        ensures answers { AnswersDeck self.old.cards.deck result (K.written sink.old)
            (K.written sink.new)
            (K.faults sink.old) (K.faults sink.new) steps.old steps.new }
        ensures silent { IsErrOf result Stop.Memory → sink.new ≡ sink.old }
        ensures state { OnOk result (state_of self.new ≡ run_of self.old.cards.deck) }
        ensures live { OnOk result (IsLive self.new) }
        ensures lines { self.new.lines ≡ self.old.lines }
        ensures workers { self.new.workers ≡ self.old.workers }
    {
        let cards = mem::replace(&mut self.cards, CardReader::new(self.alloc));
        let Ok(desks) = self.writer.workers.desks_of_deck(self.alloc, cards, steps) else {
            return Err(Stop::Memory);
        };
        let net = desks.session().net();
        if let Err(Failed) = print_accepted(net, &mut self.writer.line, sink) {
            drop(desks);
            return Err(Stop::Write);
        }
        self.desks = Some(desks);
        Ok(None)
    }

    /// How many commands were refused.
    pub(crate) fn refused(&self) -> u32 {
        self.writer.refused
    }

    /// Answers the end of the input: whether it is a refusal. It takes no memory.
    pub(crate) fn finish<K: Sink>(&mut self, sink: &mut K) -> Result<bool, Stop>
        requires live { IsLive self.old }
        requires few { self.old.lines ≤ 4194305 }
        ensures whole { IfOk result (EndAnswered deck_answering (state_of self.old)
            (K.written sink.old) (K.written sink.new)) }
        ensures part { OnErr result (AddsFront (K.written sink.old) (K.written sink.new)
            (text_at_end (state_of self.old))) }
        ensures takes_none { IsErrOf result Stop.Memory → ⊥ }
        ensures sink_later { K.faults sink.old ≤ K.faults sink.new }
        ensures fault { IsErrOf result Stop.Write → Rose (K.faults sink.old) (K.faults sink.new) }
    {
        if self.desks.is_some() {
            return Ok(false);
        }
        let refused = RefusedCard {
            card: self.cards.taken() + 1,
            refusal: Refusal::from(Code::NoEnd),
        };
        remark_card(&refused, sink);
        match print_card_refused(&refused, &mut self.writer.line, sink) {
            Ok(()) => Ok(true),
            Err(Failed) => Err(Stop::Write),
        }
    }
}

impl<R: Threads + Sync, G: Gate> Reporter<'_, R, G> {
    /// Answers a line: how it ends the run, if it does.
    pub(crate) fn answer_line<K: Sink, L: Ledger>(
        &mut self,
        line: &[u8],
        sink: &mut K,
        steps: &mut Steps<L>,
    ) -> Result<Option<Ending>, Stop>
        requires live { IsLive self.old }
        requires few { self.old.lines < 4194305 }
        ensures whole { IfOk result (LineAnswered deck_answering (state_of self.old)
            (state_of self.new)
            (K.written sink.old) (K.written sink.new) line.now) }
        ensures part { OnErr result (AddsFront (K.written sink.old) (K.written sink.new)
            (line_text (state_of self.old) line.now)) }
        ensures live { result ≡ Ok None → IsLive self.new }
        ensures steps { self.old.workers ≡ 1
            → OnOk result (steps.new ≡ steps.old + line_steps (state_of self.old) line.now) }
        ensures some_steps { self.old.workers ≡ 1
            → OnErr result (steps.new ≤ steps.old + line_steps (state_of self.old) line.now) }
        ensures workers { self.new.workers ≡ self.old.workers }
        // out of memory only before END is answered: nothing is written until then
        ensures silent { IsErrOf result Stop.Memory → (self.old.desks ≡ None) × (sink.new ≡ sink.old) }
        ensures count { self.new.lines ≤ self.old.lines + 1 }
        ensures sink_later { K.faults sink.old ≤ K.faults sink.new }
        ensures fault { IsErrOf result Stop.Write → Rose (K.faults sink.old) (K.faults sink.new) }
    {
        self.lines += 1;
        if let Some(desks) = &mut self.desks {
            self.writer.number = self.lines;
            return self.writer.answer_command(desks, line, sink, steps);
        }
        self.answer_card(line, sink, steps)
    }
}

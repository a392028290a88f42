//! The run over an input that is taken whole: it is judged, and then the lines of its answer are written.

ghost use Rattle.std.specs.Prelude.{◌≡◌, ◌≢◌, ◌≤◌, ◌⊎◌, [], length, IfOk};
ghost use Rattle.std.specs.Option.{option_map};
ghost use Rattle.transyt_io.specs.Streams.{Rose};
ghost use Rattle.transyt_outcome.specs.Outcome.{Outcome};
ghost use Rattle.transyt_io.specs.Prints.{PrintsOn};
ghost use Rattle.transyt_words.specs.Whole.{answer_after, most_after, IsSilent, StepsWithin, Told};
ghost use Rattle.transyt_words.specs.Answer.{answer_text, deck_after, of_whole};

use crate::answer::Answer;
use crate::deck_word::DeckWord;
use crate::hosted::HostedWord;
use crate::line::print_lines;
use std::alloc::{AllocError, Global};
use std::sync::ledger::Ledger;
use std::thread::Threads;
use transyt_deck::print_deck;
use transyt_io::{Failed, Intake, LineBuffer, Sink, Source};
use transyt_net::Net;
use transyt_outcome::{Status, ended, stopped_reading};
use transyt_steps::Steps;

/// Writes the deck text of a network, if there is one.
fn print_net<K: Sink>(net: Option<&Net>, line: &mut LineBuffer, sink: &mut K) -> Result<(), Failed>
    ensures { PrintsOn K.written K.faults sink.old sink.new result
        (deck_after (option_map (λ n. n.now) net.entry)) }
{
    let Some(net) = net else {
        return Ok(());
    };
    print_deck(net, line, sink)
}

/// Writes the lines of an answer, one after another, and its deck text.
fn print_answer<K: Sink>(found: &Answer, line: &mut LineBuffer, sink: &mut K) -> Result<(), Failed>
    ensures { PrintsOn K.written K.faults sink.old sink.new result (answer_text found.now) }
{
    print_lines(found.lines(), line, sink)?;
    print_net(found.deck(), line, sink)
}

/// Tells the sink the remark of an answer, if it has one.
fn tell_remark<K: Sink>(found: &Answer, sink: &mut K)
    ensures written { K.written sink.new ≡ K.written sink.old }
    ensures faults { K.faults sink.new ≡ K.faults sink.old }
{
    if let Some(sentence) = found.remark() {
        sink.remark(sentence.bytes());
    }
}

/// Tells the sink the remark of an answer, and writes the answer: its lines, one after another, and then its deck text.
pub fn say<K: Sink>(found: &Answer, line: &mut LineBuffer, sink: &mut K) -> Status
    ensures told { Told found.now (K.written sink.old) (K.written sink.new) result }
    ensures later { K.faults sink.old ≤ K.faults sink.new }
    ensures fault { result ≡ Status.WriteFault → Rose (K.faults sink.old) (K.faults sink.new) }
    ensures said { result ≢ Status.NoMemory }
{
    tell_remark(found, sink);
    if let Err(Failed) = print_answer(found, line, sink) {
        return Status::WriteFault;
    }
    ended(found.is_refused())
}

/// The memory for reading a source and for writing an answer.
#[derive(Drop)]
struct Buffers {
    intake: Intake,
    line: LineBuffer,
}

impl Buffers {
    /// Nothing is read or written yet.
    fn open(alloc: Global) -> Result<Buffers, AllocError>
        ensures { IfOk result (λ buffers. buffers.intake ≡ []) }
    {
        Ok(Buffers {
            intake: Intake::open(alloc)?,
            line: LineBuffer::open(alloc)?,
        })
    }
}

impl<'a, R: Threads + Sync, W: DeckWord> HostedWord<'a, R, W> {
    /// Takes a source whole, and answers by a word what it gave. The memory for reading and writing is taken before the
    /// first read, and all other memory before the first line is written.
    #[inline(never)]
    pub fn answer_whole<S: Source, K: Sink, L: Ledger>(
        &self,
        source: &mut S,
        sink: &mut K,
        steps: &mut Steps<L>,
    ) -> Status
        requires { W.fits self.now.word }
        ensures outcome { Outcome (of_whole (answer_after (W.answer self.now.word)))
            (S.left source.old) (S.left source.new) (S.last source.new)
            (K.written sink.old) (K.written sink.new) result }
        ensures source_later { S.faults source.old ≤ S.faults source.new }
        ensures sink_later { K.faults sink.old ≤ K.faults sink.new }
        ensures read_fault { result ≡ Status.ReadFault
            → Rose (S.faults source.old) (S.faults source.new) }
        ensures write_fault { result ≡ Status.WriteFault
            → Rose (K.faults sink.old) (K.faults sink.new) }
        // nothing is written before the input is judged, and the sink isn't touched before it was read
        ensures silent { IsSilent result → (K.written sink.new ≡ K.written sink.old)
            × (K.faults sink.new ≡ K.faults sink.old) }
        ensures unread { (result ≡ Status.ReadFault) ⊎ (result ≡ Status.TooLong) → sink.new ≡ sink.old }
        ensures steps { StepsWithin (most_after (W.most self.now.word))
            (S.left source.old) (S.left source.new) steps.old steps.new }
        ensures more_steps { steps.old ≤ steps.new }
    {
        let Ok(mut buffers) = Buffers::open(self.alloc) else {
            return Status::NoMemory;
        };
        if let Err(stop) = buffers.intake.take_all(source) {
            drop(buffers);
            return stopped_reading(stop);
        }
        let Ok(found) = self.judge_deck(buffers.intake.bytes(), sink, steps) else {
            drop(buffers);
            return Status::NoMemory;
        };
        let status = say(&found, &mut buffers.line, sink);
        drop(found);
        drop(buffers);
        status
    }
}

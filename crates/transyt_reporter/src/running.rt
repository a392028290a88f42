//! The run over the lines of a source: each is answered before the next is read.
ghost use Rattle.std.specs.Prelude.{◌≡◌, ◌≤◌, nat_eq};
ghost use Rattle.transyt_io.specs.Streams.{Rose};
ghost use Rattle.transyt_io.specs.Reading.{new_reading};
ghost use Rattle.transyt_outcome.specs.Outcome.{Outcome};
ghost use Rattle.transyt_outcome.specs.Ends.{ends_of};
ghost use Rattle.transyt_outcome.specs.RunSoFar.{RunOutcome};
ghost use Rattle.transyt_outcome.specs.Runs.{StepsTaken};
ghost use Rattle.transyt_line_answers.specs.Report.{deck_answering, reporting_run};
ghost use Rattle.transyt_reporter.specs.Reporter.{new_reporter};

use crate::remarks::remark_refused;
use crate::reporter::Reporter;
use crate::workers::Workers;
use std::alloc::Global;
use std::sync::ledger::Ledger;
use std::thread::Threads;
use transyt_desks::Gate;
use transyt_io::{Line, LineReader, Sink, Source};
use transyt_outcome::{Status, ended, stopped, stopped_reading};
use transyt_steps::Steps;

impl<R: Threads + Sync, G: Gate> Reporter<'_, R, G> {
    /// Takes the lines of a new reader one at a time, and answers each before the next is taken.
    fn run<S: Source, K: Sink, L: Ledger>(
        &mut self,
        reader: &mut LineReader,
        source: &mut S,
        sink: &mut K,
        steps: &mut Steps<L>,
    ) -> Status
        requires new { self.old ≡ new_reporter self.old.workers }
        requires fresh { reader.old ≡ new_reading }
        ensures { RunOutcome deck_answering (nat_eq self.old.workers 1)
            (ends_of S.left S.last S.faults K.written K.faults source.old sink.old)
            (ends_of S.left S.last S.faults K.written K.faults source.new sink.new)
            steps.old steps.new result }
    {
        loop {
            let found = match reader.next(source) {
                Ok(found) => found,
                Err(stop) => return stopped_reading(stop),
            };
            if let Line::End = found {
                return match self.finish(sink) {
                    Ok(refused) => ended(refused),
                    Err(stop) => stopped(stop),
                };
            }
            match self.answer_line(reader.line(), sink, steps) {
                Ok(None) => {}
                Ok(Some(ending)) => return ending.status(),
                Err(stop) => return stopped(stop),
            }
        }
    }
}

/// Writes the report of a deck and of its commands, which a source gives, with so many workers.
///
/// Each line is answered before the next is read, and each step of a climb is written before the next look. The memory
/// for reading and writing is taken before the first read, and all other memory before the first line is written.
#[inline(never)]
pub fn run_deck<R: Threads + Sync, S: Source, K: Sink, G: Gate, L: Ledger>(
    workers: Workers<'_, R, G>,
    alloc: Global,
    source: &mut S,
    sink: &mut K,
    steps: &mut Steps<L>,
) -> Status
    ensures outcome { Outcome reporting_run (S.left source.old) (S.left source.new)
        (S.last source.new)
        (K.written sink.old) (K.written sink.new) result }
    ensures source_later { S.faults source.old ≤ S.faults source.new }
    ensures sink_later { K.faults sink.old ≤ K.faults sink.new }
    ensures read_fault { result ≡ Status.ReadFault
        → Rose (S.faults source.old) (S.faults source.new) }
    ensures write_fault { result ≡ Status.WriteFault
        → Rose (K.faults sink.old) (K.faults sink.new) }
    ensures steps { workers.entry.count ≡ 1
        → StepsTaken deck_answering (S.left source.old) (S.left source.new) steps.old steps.new
        result }
{
    let Ok(mut reporter) = Reporter::open(alloc, workers) else {
        return Status::NoMemory;
    };
    let Ok(mut reader) = LineReader::open(alloc) else {
        drop(reporter);
        return Status::NoMemory;
    };
    let status = reporter.run(&mut reader, source, sink, steps);
    remark_refused(reporter.refused(), sink);
    drop(reader);
    drop(reporter);
    status
}

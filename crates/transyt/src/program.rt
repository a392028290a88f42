//! The program over any source and sink: its words, the top call and the end.
ghost use Rattle.std.specs.IoError.{error_kind};
ghost use Rattle.std.specs.Prelude.{◌≡◌, ◌≢◌, ◌<◌, ◌≤◌, IfErr, IfOk, map, string_bytes};
ghost use Rattle.transyt_outcome.specs.declared.status.Status.{Status};
ghost use Rattle.transyt.specs.Program.{ProgramHeadline, ProgramRan, TopCall, after_name, sides_of};
ghost use Rattle.transyt.specs.Program.{number_without_words};
ghost use Rattle.transyt_outcome.specs.Ends.{ends_of};

use crate::bad_words::tell_bad_words;
use crate::ending::{exit_of, sentence_of};
use crate::host_gate::HostGate;
use crate::telling::Telling;
use crate::top::transyt;
use crate::version::VERSION;
use std::io::{self, ErrorKind};
use std::marker::Brand;
use std::sync::ledger::{Blank, Ledger};
use std::thread::Threads;
use transyt_io::{Sink, Source, SteadySource, TallySink};
use transyt_outcome::Status;
use transyt_steps::Steps;

/// The words after the program's name.
fn after_name(given: &[String]) -> &[String]
    ensures { result.now ≡ after_name given.now }
{
    match given {
        [_, words @ ..] => words,
        [] => given,
    }
}

/// A call of the program: the runtime, and the words after the program's name.
#[derive(Drop)]
pub struct Call<'a, R> {
    /// The runtime.
    pub rt: &'a R,
    /// The words.
    pub words: &'a [String],
}

impl<'a, R: Threads + Sync + AllocGlobal> Call<'a, R> {
    /// The top call with a counter of steps that this blank makes, and with no more workers than there are processors.
    fn run_counted<S: Source, K: Sink, L: Ledger>(
        &self,
        source: &mut S,
        sink: &mut K,
        blank: Blank,
    ) -> Status
        requires name { blank.name ≡ L.name }
        requires parts { blank.parts ≡ L.parts }
        requires some { 0 < L.parts }
        ensures { TopCall (map string_bytes self.now.words.now)
            (sides_of (ends_of S.left S.last S.faults K.written K.faults) source.old sink.old)
            (sides_of (ends_of S.left S.last S.faults K.written K.faults) source.new sink.new)
            result }
    {
        let rt = self.rt;
        let mut steps = Steps::<L>::begin(blank);
        transyt(
            rt,
            rt.alloc(),
            self.words,
            source,
            sink,
            &HostGate { rt },
            &mut steps,
        )
    }

    /// The top call with a counter of steps of its own.
    fn run<S: Source, K: Sink>(&self, source: &mut S, sink: &mut K) -> Status
        ensures { TopCall (map string_bytes self.now.words.now)
            (sides_of (ends_of S.left S.last S.faults K.written K.faults) source.old sink.old)
            (sides_of (ends_of S.left S.last S.faults K.written K.faults) source.new sink.new)
            result }
    {
        self.run_counted::<S, K, Brand>(source, sink, Blank::new(1))
    }

    /// The top call over a source that never fails: it ends with no fault of a read.
    #[tactic(auto, using(crate::proofs::ProgramLaws::none_rose))]
    pub fn run_steady<K: Sink>(&self, source: &mut SteadySource, sink: &mut K) -> Status
        ensures { result ≢ Status.ReadFault }
    {
        self.run(source, sink)
    }

    /// The top call over a sink that never fails: it ends with no fault of a write.
    #[tactic(auto, using(crate::proofs::ProgramLaws::none_rose))]
    pub fn run_tallied<S: Source>(&self, source: &mut S, sink: &mut TallySink) -> Status
        ensures { result ≢ Status.WriteFault }
    {
        self.run(source, sink)
    }
}

/// Tells standard error why not all was done, in a sentence or with the lists of words that the program takes. Of a
/// refused deck the sink has told it already. A fault of standard error changes nothing.
fn tell<R: Eprint>(rt: &R, ended: Result<Status, ErrorKind>) {
    if let Ok(Status::DeckRefused) = ended {
        return;
    }
    if let Ok(Status::BadWords) = ended {
        let _ = eprintln!(rt; "{VERSION}");
    }
    if let Some(sentence) = sentence_of(ended) {
        let _ = eprintln!(rt; "{sentence}");
    }
}

/// The program without words: nothing is read or written.
fn run_without<R: Eprint>(rt: &R, cause: ErrorKind) -> u8
    ensures number { result ≡ number_without_words cause }
    ensures most { result ≤ 7 }
{
    tell(rt, Err(cause));
    exit_of(Err(cause))
}

/// Runs the program with the words that it was given, its own name first, and gives its exit number, and the sink
/// again.
///
/// Standard error is told of each refused line: its number, the code, and why; and of a run that didn't do all, why
/// not.
pub fn run_program<R: Threads + Sync + Eprint + AllocGlobal, S: Source, K: Sink>(
    rt: &R,
    given: io::Result<Vec<String>>,
    source: &mut S,
    sink: K,
) -> (u8, K)
    // the top call's outcome of one run with the words after the program's name; the number is that of its status
    ensures ran { IfOk given (λ words. ProgramRan (map string_bytes (after_name words.items))
        (sides_of (ends_of S.left S.last S.faults K.written K.faults) source.old sink)
        (sides_of (ends_of S.left S.last S.faults K.written K.faults) source.new result.1)
        result.0) }
    // with `run`, with no fault and no want of memory: the report of the input, and the number of its status
    ensures headline { IfOk given
        (λ words. ProgramHeadline (map string_bytes (after_name words.items))
        (ends_of S.left S.last S.faults K.written K.faults source.old sink)
        (ends_of S.left S.last S.faults K.written K.faults source.new result.1) result.0) }
    // with no words nothing is read or written
    ensures no_words { IfErr given (λ error. (source.new ≡ source.old) × (result.1 ≡ sink)) }
    ensures no_words_number { IfErr given
        (λ error. result.0 ≡ number_without_words (error_kind error)) }
    ensures most { result.0 ≤ 7 }
{
    let words = match given {
        Ok(words) => words,
        Err(error) => return (run_without(rt, error.kind()), sink),
    };
    let mut telling = Telling { rt, sink };
    let call = Call {
        rt,
        words: after_name(&words),
    };
    let status = call.run(source, &mut telling);
    if let Status::BadWords = status {
        tell_bad_words(rt, call.words);
    }
    tell(rt, Ok(status));
    drop(call);
    drop(words);
    (exit_of(Ok(status)), telling.sink)
}

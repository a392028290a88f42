//! The top call.
ghost use Rattle.std.specs.Prelude.{◌≡◌, ◌≢◌, ◌≤◌, ◌++◌, ◌↔◌, ℕ, List, Some, None, length, map, string_bytes, IfSome};
ghost use Rattle.transyt_io.specs.Streams.{Rose};
ghost use Rattle.transyt_line_answers.specs.Commands.{climb_of};
ghost use Rattle.transyt_line_answers.specs.Report.{report, status, run_state};
ghost use Rattle.transyt.specs.Reports.{ClimbDescends};
ghost use Rattle.transyt.specs.Tasks.{TaskOutcome, TaskHeadline, TaskComplete, TaskTooLong, IsWriting};
ghost use Rattle.transyt.specs.Words.{task_of, WordSteps, IsRun, word_of};

use crate::word::{WordCall, word_of};
use std::alloc::Global;
use std::sync::ledger::Ledger;
use std::thread::Threads;
use transyt_desks::Gate;
use transyt_io::{Sink, Source};
use transyt_outcome::Status;
use transyt_steps::Steps;

/// Runs the program with its words, which `word.rt` lists.
///
/// The output is the same for every number of workers. `run` answers each line of the input before the next is
/// read, and each step of a climb is written before the next look; the words after it that read an input take
/// it whole. All memory is taken before the first line is written.
pub fn transyt<R: Threads + Sync, S: Source, K: Sink, G: Gate, L: Ledger>(
    rt: &R,
    alloc: Global,
    words: &[String],
    source: &mut S,
    sink: &mut K,
    gate: &G,
    steps: &mut Steps<L>,
) -> Status
    // BadWords exactly where the words are none that the program takes; then nothing is read, written or counted
    ensures bad_words { (result ≡ Status.BadWords) ↔ (word_of (map string_bytes words.now) ≡ None) }
    ensures untouched { result ≡ Status.BadWords
        → (source.new ≡ source.old) × (sink.new ≡ sink.old) × (steps.new ≡ steps.old) }

    // the bytes taken and written, for each other status
    ensures outcome { IfSome (task_of (map string_bytes words.now)) (λ asked.
        TaskOutcome asked (S.left source.old) (S.left source.new) (S.last source.new)
        (K.written sink.old) (K.written sink.new) result) }
    // with `make`, `brief` and `version` nothing is read
    ensures reads_nothing { IfSome (task_of (map string_bytes words.now)) (λ asked.
        IsWriting asked → source.new ≡ source.old) }

    // a fault of the source or the sink comes only where its count rose
    ensures read_fault { result ≡ Status.ReadFault
        → Rose (S.faults source.old) (S.faults source.new) }
    ensures write_fault { result ≡ Status.WriteFault
        → Rose (K.faults sink.old) (K.faults sink.new) }

    // with `run`, with no fault and no want of memory: the report of the input, and its status
    ensures headline { IsRun (word_of (map string_bytes words.now)) → result ≢ Status.NoMemory
        → (Rose (S.faults source.old) (S.faults source.new) → ⊥)
        → (Rose (K.faults sink.old) (K.faults sink.new) → ⊥)
        → (input held : List ℕ) → S.left source.old ≡ Some input → K.written sink.old ≡ Some held
        → length input ≤ 4194304
        → (K.written sink.new ≡ Some (held ++ report input)) × (result ≡ status input) }
    // a climb of the report, on what any lines have come to: each step strictly lowers the index within every least
    // green and intergreen; it ends LOCAL where no listed move lowers the index, or BUDGET where the budget is spent
    ensures climbs { (before : List (List ℕ)) → ClimbDescends climb_of (run_state before) }
    // with any words that the program takes: what they ask for
    ensures told { result ≢ Status.NoMemory
        → (Rose (S.faults source.old) (S.faults source.new) → ⊥)
        → (Rose (K.faults sink.old) (K.faults sink.new) → ⊥)
        → IfSome (task_of (map string_bytes words.now)) (λ asked.
        TaskHeadline asked (S.left source.old) (K.written sink.old) (K.written sink.new) result) }
    // the status, for a sink that doesn't tell
    ensures complete { result ≢ Status.NoMemory
        → (Rose (S.faults source.old) (S.faults source.new) → ⊥)
        → (Rose (K.faults sink.old) (K.faults sink.new) → ⊥)
        → IfSome (task_of (map string_bytes words.now))
        (λ asked. TaskComplete asked (S.left source.old) result) }
    // TooLong where the first 4,194,304 bytes don't end the run and more come
    ensures too_long { result ≢ Status.NoMemory
        → (Rose (S.faults source.old) (S.faults source.new) → ⊥)
        → (Rose (K.faults sink.old) (K.faults sink.new) → ⊥)
        → IfSome (task_of (map string_bytes words.now))
        (λ asked. TaskTooLong asked (S.left source.old) result) }

    // the steps: with one worker, and of words without workers
    ensures steps { IfSome (word_of (map string_bytes words.now)) (λ word.
        WordSteps word (S.left source.old) (S.left source.new) steps.old steps.new result) }
{
    let Some(word) = word_of(words) else {
        return Status::BadWords;
    };
    let call = WordCall {
        rt,
        alloc,
        gate,
        word,
    };
    call.answer(source, sink, steps)
}

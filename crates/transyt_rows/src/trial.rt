//! Runs of a row.
ghost use Rattle.std.specs.Prelude.{◌≡◌, ◌<◌};

use crate::hearing::Hearing;
use crate::meeting::Meeting;
use crate::report::{print_difference, print_failed};
use std::alloc::{AllocError, Global};
use std::io;
use std::marker::Brand;
use std::sync::ledger::{Blank, Ledger};
use std::thread::Threads;
use transyt::{Gate, OpenGate, Status, run_args, transyt};
use transyt_io::{MemorySink, MemorySource, Sink, Source, SteadySource, TallySink};
use transyt_steps::Steps;
use transyt_written_rows::{Ends, Failing, Pieces, Row};

/// One run of a row: its words and pieces, the numbers of the read and of the write that fail, or 0, and what is to be
/// written.
#[derive(Drop)]
struct Trial<'a> {
    row: &'a Row,
    words: &'a [String],
    pieces: Pieces,
    failing_read: u32,
    failing_write: u32,
    wanted: Vec<u8>,
}

/// The result of a run: exit number, bytes written, bytes left in the source, remarks, and whether the gate was
/// met.
#[derive(Drop)]
struct Outcome {
    status: u8,
    written: Vec<u8>,
    left: Vec<u8>,
    told: Vec<u8>,
    met: bool,
}

/// The top call, with a counter of steps of its own.
fn run_counted<R: Threads + Sync + AllocGlobal, S: Source, K: Sink, G: Gate, L: Ledger>(
    rt: &R,
    words: &[String],
    ends: (&mut S, &mut K),
    gate: &G,
    blank: Blank,
) -> Status
    requires name { blank.name ≡ L.name }
    requires parts { blank.parts ≡ L.parts }
    requires some { 0 < L.parts }
{
    let (source, sink) = ends;
    let mut steps = Steps::<L>::begin(blank);
    transyt(rt, rt.alloc(), words, source, sink, gate, &mut steps)
}

/// The top call.
fn run<R: Threads + Sync + AllocGlobal, S: Source, K: Sink, G: Gate>(
    rt: &R,
    words: &[String],
    source: &mut S,
    sink: &mut K,
    gate: &G,
) -> Status {
    run_counted::<R, S, K, G, Brand>(rt, words, (source, sink), gate, Blank::new(1))
}

/// The bytes that a source has left, and at most so many of them.
fn rest_of(alloc: Global, source: &mut MemorySource, most: usize) -> Result<Vec<u8>, AllocError> {
    let mut rest = Vec::new(alloc);
    for _ in 0..most {
        let mut byte = [0];
        if let Ok(1) = source.read(&mut byte) {
            rest.push(byte[0])?;
        }
    }
    Ok(rest)
}

/// The calls that fail: the one with this number, or none.
fn calls(alloc: Global, failing: u32) -> Result<Vec<u32>, AllocError> {
    vec![in alloc; failing; 1]
}

/// The source of a trial.
fn source_of(alloc: Global, trial: &Trial<'_>) -> Result<MemorySource, AllocError> {
    let failing = calls(alloc, trial.failing_read)?;
    let input = trial.row.input(alloc)?;
    Ok(MemorySource::new(input, trial.pieces.read.max(1), failing))
}

/// The sink of a trial.
fn sink_of(alloc: Global, trial: &Trial<'_>) -> Result<Hearing<MemorySink>, AllocError> {
    let failing = calls(alloc, trial.failing_write)?;
    let sink = MemorySink::new(alloc, trial.row.room, trial.pieces.written.max(1), failing)?;
    let heard = Vec::new(alloc);
    Ok(Hearing { sink, heard })
}

/// The result of a trial over a source and a sink in memory that ended with this status.
fn came_of(
    alloc: Global,
    row: &Row,
    status: Status,
    source: &mut MemorySource,
    sink: &Hearing<MemorySink>,
) -> Result<Outcome, AllocError> {
    let most = match &row.left {
        Some(left) => left.len().saturating_add(1),
        None => 0,
    };
    let written = sink.sink.bytes().to_vec(alloc)?;
    let left = rest_of(alloc, source, most)?;
    let told = sink.heard.to_vec(alloc)?;
    Ok(Outcome {
        status: status.code(),
        written,
        left,
        told,
        met: true,
    })
}

/// Runs over a source and a sink in memory.
fn over_memory<R: Threads + Sync + AllocGlobal, G: Gate>(
    rt: &R,
    trial: &Trial<'_>,
    gate: &G,
) -> Result<Outcome, AllocError> {
    let alloc = rt.alloc();
    let mut source = source_of(alloc, trial)?;
    let mut sink = match sink_of(alloc, trial) {
        Ok(sink) => sink,
        Err(error) => {
            drop(source);
            return Err(error);
        }
    };
    let status = run(rt, trial.words, &mut source, &mut sink, gate);
    let came = came_of(alloc, trial.row, status, &mut source, &sink);
    drop(sink);
    drop(source);
    came
}

/// Runs at a gate where the first two desks wait for each other.
fn at_meeting<R: Threads + Sync + AllocGlobal>(
    rt: &R,
    trial: &Trial<'_>,
) -> Result<Outcome, AllocError> {
    let gate = Meeting::new();
    let mut outcome = over_memory(rt, trial, &gate)?;
    outcome.met = gate.both_came() && gate.alone() == 0;
    Ok(outcome)
}

/// Runs over a source that never fails and a sink that counts; in place of what was written so many bytes are told.
fn over_tally<R: Threads + Sync + AllocGlobal>(
    rt: &R,
    trial: &Trial<'_>,
) -> Result<Outcome, AllocError> {
    let alloc = rt.alloc();
    let mut source = SteadySource::new(trial.row.input(alloc)?);
    let mut sink = TallySink::new();
    let status = run(rt, trial.words, &mut source, &mut sink, &OpenGate);
    let met = sink.taken() == trial.wanted.len() as u128;
    Ok(Outcome {
        status: status.code(),
        written: trial.wanted.to_vec(alloc)?,
        left: Vec::new(alloc),
        told: Vec::new(alloc),
        met,
    })
}

/// The words of a program that has this name, with its name first.
fn named(alloc: Global, name: &str, words: &[String]) -> Result<Vec<String>, AllocError> {
    let mut given = Vec::new(alloc);
    given.push(String::from_str(alloc, name)?)?;
    for word in words {
        given.push(String::from_str(alloc, word)?)?;
    }
    Ok(given)
}

/// Runs over a slice and a vector, as a reader and a writer of std, with a program's name before the words.
fn over_std<R: Threads + Sync + Eprint + AllocGlobal>(
    rt: &R,
    trial: &Trial<'_>,
) -> Result<Outcome, AllocError> {
    let alloc = rt.alloc();
    let input = trial.row.input(alloc)?;
    let given = named(alloc, "transyt", trial.words)?.into_iter();
    let (status, written) = run_args(rt, Ok(given), input.as_slice(), Vec::new(alloc));
    Ok(Outcome {
        status,
        written,
        left: Vec::new(alloc),
        told: Vec::new(alloc),
        met: true,
    })
}

/// The result of a trial.
fn outcome_of<R: Threads + Sync + Eprint + AllocGlobal>(
    rt: &R,
    trial: &Trial<'_>,
) -> Result<Outcome, AllocError> {
    match trial.row.ends {
        Ends::Memory => over_memory(rt, trial, &OpenGate),
        Ends::Meeting => at_meeting(rt, trial),
        Ends::Tally => over_tally(rt, trial),
        Ends::Std => over_std(rt, trial),
    }
}

/// Whether the remarks are those that a row names, if it names any.
fn is_told(row: &Row, told: &[u8]) -> bool {
    match &row.told {
        Some(wanted) => wanted.as_slice() == told,
        None => true,
    }
}

/// The bytes that the source is to have left.
fn left_of(row: &Row) -> &[u8] {
    match &row.left {
        Some(left) => left.as_slice(),
        None => &[],
    }
}

/// Whether what came of a trial is wanted.
fn is_wanted(trial: &Trial<'_>, outcome: &Outcome) -> bool {
    let row = trial.row;
    outcome.written == trial.wanted
        && outcome.left.as_slice() == left_of(row)
        && is_told(row, &outcome.told)
        && outcome.met
        && outcome.status == row.status
}

/// Tells how what came of a trial differs from what is wanted.
fn print_outcome<R: Print>(rt: &R, trial: &Trial<'_>, outcome: &Outcome) -> io::Result<()> {
    let row = trial.row;
    print_failed(rt, row, trial.words)?;
    println!(rt; "  status wanted: {}, got: {}", row.status, outcome.status)?;
    print_difference(rt, "output", &trial.wanted, &outcome.written)?;
    print_difference(rt, "left", left_of(row), &outcome.left)?;
    match &row.told {
        Some(told) => print_difference(rt, "told", told, &outcome.told),
        None => Ok(()),
    }
}

/// Whether what came of a trial is wanted; if not, it is told.
fn holds<R: Threads + Sync + Print + Eprint + AllocGlobal>(
    rt: &R,
    trial: &Trial<'_>,
) -> io::Result<bool> {
    let outcome = outcome_of(rt, trial)?;
    let wanted = is_wanted(trial, &outcome);
    let told = if wanted {
        Ok(())
    } else {
        print_outcome(rt, trial, &outcome)
    };
    drop(outcome);
    told?;
    Ok(wanted)
}

/// Lets each read of one byte fail in turn, the one that finds the end too: the answers to the lines before it stand.
fn holds_at_each_read<R: Threads + Sync + Print + Eprint + AllocGlobal>(
    rt: &R,
    trial: &mut Trial<'_>,
) -> io::Result<bool> {
    trial.pieces.read = 1;
    let row = trial.row;
    for taken in 0..=row.input_len() {
        trial.failing_read = trial.failing_read.saturating_add(1);
        trial.wanted = row.output(rt.alloc(), taken)?;
        if !holds(rt, trial)? {
            return Ok(false);
        }
    }
    Ok(true)
}

/// Lets each write fail in turn: the pieces before it stand. Each line is written by calls of its own.
fn holds_at_each_write<R: Threads + Sync + Print + Eprint + AllocGlobal>(
    rt: &R,
    trial: &mut Trial<'_>,
    output: &[u8],
) -> io::Result<bool> {
    let size = trial.pieces.written.max(1);
    let mut before = 0usize;
    for line in output.split_inclusive(|byte| *byte == b'\n') {
        for piece in line.chunks(size) {
            trial.failing_write = trial.failing_write.saturating_add(1);
            trial.wanted = output.get(..before).unwrap_or(&[]).to_vec(rt.alloc())?;
            if !holds(rt, trial)? {
                return Ok(false);
            }
            before = before.saturating_add(piece.len());
        }
    }
    Ok(true)
}

/// Whether a trial holds, where these calls fail in it.
fn holds_failing<R: Threads + Sync + Print + Eprint + AllocGlobal>(
    rt: &R,
    trial: &mut Trial<'_>,
    failing: Failing,
) -> io::Result<bool> {
    match failing {
        Failing::Nothing => {}
        Failing::Read(number) => trial.failing_read = number,
        Failing::Write(number) => trial.failing_write = number,
        Failing::EachRead => return holds_at_each_read(rt, trial),
        Failing::EachWrite => {
            let output = trial.row.output(rt.alloc(), usize::MAX)?;
            return holds_at_each_write(rt, trial, &output);
        }
    }
    holds(rt, trial)
}

/// Whether a row holds with these words and pieces.
fn passes_with<R: Threads + Sync + Print + Eprint + AllocGlobal>(
    rt: &R,
    row: &Row,
    words: &[String],
    pieces: Pieces,
) -> io::Result<bool> {
    let mut trial = Trial {
        row,
        words,
        pieces,
        failing_read: 0,
        failing_write: 0,
        wanted: row.output(rt.alloc(), usize::MAX)?,
    };
    holds_failing(rt, &mut trial, row.failing)
}

/// Whether a row holds with each list of its words and each size of its pieces.
pub(crate) fn passes<R: Threads + Sync + Print + Eprint + AllocGlobal>(
    rt: &R,
    row: &Row,
) -> io::Result<bool> {
    for words in &row.words {
        for pieces in &row.pieces {
            if !passes_with(rt, row, words, *pieces)? {
                return Ok(false);
            }
        }
    }
    Ok(true)
}

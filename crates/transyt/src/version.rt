//! Which program this is, and the word that says so.
ghost use Rattle.std.specs.Prelude.{◌≡◌, ◌≤◌, false};
ghost use Rattle.transyt_io.specs.Streams.{Rose};
ghost use Rattle.transyt_outcome.specs.Outcome.{TextOutcome};
ghost use Rattle.transyt.specs.Version.{version_text};

use std::alloc::Global;
use transyt_io::{LineBuffer, Sink, write_line};
use transyt_outcome::Status;

/// The version of the program, and of the prover's kit that it was proved with.
pub const VERSION: &str = "transyt 1.0.0, kit rattle-kit-13f";

/// Writes the version as a line. The memory is taken before it is written.
pub(crate) fn write_version<K: Sink>(alloc: Global, sink: &mut K) -> Status
    ensures outcome { TextOutcome version_text false (K.written sink.old) (K.written sink.new)
        result }
    ensures later { K.faults sink.old ≤ K.faults sink.new }
    ensures write_fault { result ≡ Status.WriteFault
        → Rose (K.faults sink.old) (K.faults sink.new) }
    ensures silent { result ≡ Status.NoMemory → sink.new ≡ sink.old }
{
    let Ok(mut line) = LineBuffer::open(alloc) else {
        return Status::NoMemory;
    };
    line.put(VERSION.as_bytes());
    line.put(b"\n");
    let printed = write_line(&line, sink);
    drop(line);
    match printed {
        Ok(()) => Status::Done,
        Err(_) => Status::WriteFault,
    }
}

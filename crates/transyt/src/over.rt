//! The program over a reader and a writer of std.
ghost use Rattle.std.specs.IoError.{error_kind};
ghost use Rattle.std.specs.Prelude.{◌≡◌, ◌≤◌, IfErr, IfOk, IfSome, Some, map, string_bytes};
ghost use Rattle.transyt.specs.Program.{OverHeadline, OverRan, after_name, number_without_words};

use crate::program::run_program;
use std::io::{self, Read, Write};
use std::thread::Threads;
use transyt_io::{StdSink, StdSource};

/// Runs the program over a reader and a writer of std, with the words that it was given, its own name first, and
/// gives its exit number, and the writer again.
///
/// The contract speaks of a reader that tells what remains of its input and of a writer that tells what it holds.
/// Neither tells whether a call of it failed: the exit number does, 3 for a read and 4 for a write.
pub fn run_over<R: Threads + Sync + Eprint + AllocGlobal, I: Read + Drop, W: Write>(
    rt: &R,
    given: io::Result<Vec<String>>,
    reader: I,
    writer: W,
) -> (u8, W)
    // with the words after the program's name: the number is that of a status, the bytes taken and written are as that
    // status says, and where no call failed and there was memory the writer holds what it held and what the words ask for
    ensures ran { IfOk given (λ words. OverRan (map string_bytes (after_name words.items))
        (I.remaining reader) (W.contents writer) (W.contents result.1) result.0) }
    // with `run` that is the report of the input, and the number is that of its status
    ensures headline { IfOk given (λ words. OverHeadline (map string_bytes (after_name words.items))
        (I.remaining reader) (W.contents writer) (W.contents result.1) result.0) }
    // with no words nothing is written
    ensures no_words { IfErr given (λ error.
        IfSome (W.contents writer) (λ held. W.contents result.1 ≡ Some held)) }
    ensures no_words_number { IfErr given
        (λ error. result.0 ≡ number_without_words (error_kind error)) }
    ensures most { result.0 ≤ 7 }
{
    let mut source = StdSource::new(reader);
    let sink = StdSink::new(writer);
    let (number, sink) = run_program(rt, given, &mut source, sink);
    drop(source);
    (number, sink.into_inner())
}

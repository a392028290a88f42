//! The program with the words that std answers.
ghost use Rattle.std.specs.IoError.{error_kind};
ghost use Rattle.std.specs.Prelude.{◌≡◌, ◌≤◌, IfErr, IfOk, IfSome, IsOkAnd, MatchResult, Some, map, string_bytes};
ghost use Rattle.std.specs.Vec.Iter.{into_iter_items};
ghost use Rattle.transyt.specs.Program.{ArgsRan, OverHeadline, after_name, number_without_words};

use crate::over::run_over;
use std::alloc::Global;
use std::env::Args;
use std::io::{self, ErrorKind, Read, Write};
use std::thread::Threads;

/// The words that std's `env::args` answered, in order: the program's name, and those after it.
pub fn given_words(args: io::Result<Args>, alloc: Global) -> io::Result<Vec<String>>
    ensures words { IfOk result
        (λ words. IsOkAnd args (λ given. words.items ≡ into_iter_items given)) }
    // without std's words its error is passed on; with them there was no memory for the list
    ensures cause { IfErr result (λ error. MatchResult args
        (λ given. error_kind error ≡ ErrorKind.OutOfMemory) (λ cause. error ≡ cause)) }
{
    let args = args?;
    let mut words = Vec::new(alloc);
    for word in args {
        words.push(word)?;
    }
    Ok(words)
}

/// Runs the program over a reader and a writer of std, with the words that std's `env::args` answered, and gives its
/// exit number, and the writer again.
///
/// The contract speaks of a reader that tells what remains of its input and of a writer that tells what it holds, as
/// that of `run_over` does.
pub fn run_args<R: Threads + Sync + Eprint + AllocGlobal, I: Read + Drop, W: Write>(
    rt: &R,
    args: io::Result<Args>,
    reader: I,
    writer: W,
) -> (u8, W)
    // with the words that std answered, after the first, the program's name: the number is that of a status, the bytes
    // taken and written are as this status says, or there was no memory for the list of words
    ensures ran { IfOk args (λ given. ArgsRan
        (map string_bytes (after_name (into_iter_items given)))
        (I.remaining reader) (W.contents writer) (W.contents result.1) result.0) }
    // with `run` that is the report of the input, and the number is that of its status
    ensures headline { IfOk args
        (λ given. OverHeadline (map string_bytes (after_name (into_iter_items given)))
        (I.remaining reader) (W.contents writer) (W.contents result.1) result.0) }
    // with no words nothing is written
    ensures no_words { IfErr args (λ error.
        IfSome (W.contents writer) (λ held. W.contents result.1 ≡ Some held)) }
    ensures no_words_number { IfErr args
        (λ error. result.0 ≡ number_without_words (error_kind error)) }
    ensures most { result.0 ≤ 7 }
{
    let given = given_words(args, rt.alloc());
    run_over(rt, given, reader, writer)
}

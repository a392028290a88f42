//! The command of a line.
ghost use Rattle.std.specs.Prelude.{◌≡◌, ◌≤◌, ◌↔◌, IsTrue, IfErr, IfSome, None, Some, Ok, drop};
ghost use Rattle.transyt_io.specs.Lines.{is_skipped};
ghost use Rattle.transyt_syntax.specs.Syntax.{named, with_numbers, counts_of, syntax_code};
ghost use Rattle.transyt_commands.specs.Commands.{commands, edits, command_in};
ghost use Rattle.transyt_commands.specs.declared.command.Command.TheVariants as command;
ghost use Rattle.transyt_net.specs.declared.edit.Edit.TheVariants as edit;

use crate::command::{Command, Request};
use transyt_io::is_skipped;
use transyt_net::{Edit, Weights};
use transyt_syntax::{Code, LineWords, Numbers, Refusal, is_word};

/// Reads the command of a line; `None` for a comment or a blank line.
///
/// An error is the first of the codes 11, 10, 12 and 13 that holds of the line. The line may have any length, and a
/// line end in it is a byte that may not stand there (10).
pub fn read_command(line: &[u8]) -> Result<Option<Command>, Refusal>
    ensures command { result ≡ command_in line.now }
    ensures nothing { (result ≡ Ok None) ↔ IsTrue (is_skipped line.now) }
    ensures refused { IfErr result (λ code.
        syntax_code (counts_of commands line.now) line.now ≡ Some code) }
{
    if is_skipped(line) {
        return Ok(None);
    }
    let words = LineWords::of(line);
    words.say(command_named(words.keyword, &words.further.numbers))
}

/// Whether a word is the keyword of a command.
pub fn is_command(word: &[u8]) -> bool {
    match read_command(word) {
        Ok(command) => command.is_some(),
        Err(refusal) => refusal.code() != Code::OddByte,
    }
}

/// The least and the most numbers that a keyword takes, and the command that it is with these numbers.
fn command_named(keyword: &[u8], numbers: &Numbers) -> Option<((usize, usize), Command)>
    ensures command { result ≡ with_numbers numbers.now (named commands keyword.now) }
    ensures most { IfSome result (λ found. found.0.1 ≤ 17) }
{
    match keyword {
        _ if is_word(keyword, b"TRIAL") => Some(((0, 0), Command::Trial)),
        _ if is_word(keyword, b"BACK") => Some(((0, 0), Command::Back)),
        _ if is_word(keyword, b"KEEP") => Some(((0, 0), Command::Keep)),
        _ if is_word(keyword, b"CLIMB") => request(0, Request::Climb),
        _ if is_word(keyword, b"CERT") => request(0, Request::Cert),
        _ if is_word(keyword, b"INDEX") => request(0, Request::Index),
        _ if is_word(keyword, b"LINKS") => request(0, Request::Links),
        _ if is_word(keyword, b"FIGURES") => request(0, Request::Figures),
        _ => late_named(keyword, numbers),
    }
}

/// The same of the keywords from TIMING on, the ninth row of the table.
fn late_named(keyword: &[u8], numbers: &Numbers) -> Option<((usize, usize), Command)>
    ensures command { result ≡ with_numbers numbers.now (named (drop 8 commands) keyword.now) }
    ensures most { IfSome result (λ found. found.0.1 ≤ 17) }
{
    let link = numbers.at(0);
    match keyword {
        _ if is_word(keyword, b"TIMING") => request(0, Request::Timing),
        _ if is_word(keyword, b"PROFILE") => request(1, Request::Profile { link }),
        _ if is_word(keyword, b"PLOT") => request(1, Request::Plot { link }),
        _ if is_word(keyword, b"QUEUE") => request(1, Request::Queue { link }),
        _ if is_word(keyword, b"CHART") => request(0, Request::Chart),
        _ if is_word(keyword, b"WORK") => request(0, Request::Work),
        _ if is_word(keyword, b"DECK") => request(0, Request::Deck),
        _ if is_word(keyword, b"STOP") => request(0, Request::Stop),
        _ => edit_named(keyword, numbers),
    }
}

/// The same of the keywords of edits.
fn edit_named(keyword: &[u8], numbers: &Numbers) -> Option<((usize, usize), Command)>
    ensures command { result ≡ with_numbers numbers.now (named edits keyword.now) }
    ensures most { IfSome result (λ found. found.0.1 ≤ 17) }
{
    let (a, b, c) = (numbers.at(0), numbers.at(1), numbers.at(2));
    match keyword {
        _ if is_word(keyword, b"OFFSET") => edit(2, Edit::Offset { node: a, offset: b }),
        _ if is_word(keyword, b"CHANGE") => edit(3, change_of(a, b, c)),
        _ if is_word(keyword, b"ENTRY") => edit(2, Edit::Entry { link: a, flow: b }),
        _ if is_word(keyword, b"PART") => edit(3, part_of(a, b, c)),
        _ if is_word(keyword, b"CRUISE") => edit(3, cruise_of(a, b, c)),
        _ if is_word(keyword, b"SATURATION") => edit(2, Edit::Saturation { link: a, flow: b }),
        _ if is_word(keyword, b"WEIGHT") => edit(3, weight_of(a, b, c)),
        _ => None,
    }
}

/// A request after so many numbers.
fn request(count: usize, request: Request) -> Option<((usize, usize), Command)>
    ensures { result ≡ Some ((count, count), command.Request request) }
{
    Some(((count, count), Command::Request(request)))
}

/// An edit after so many numbers.
fn edit(count: usize, edit: Edit) -> Option<((usize, usize), Command)>
    ensures { result ≡ Some ((count, count), command.Edit edit) }
{
    Some(((count, count), Command::Edit(edit)))
}

/// The CHANGE of these numbers.
fn change_of(node: u32, stage: u32, change: u32) -> Edit
    ensures { result ≡ edit.Change node stage change }
{
    Edit::Change {
        node,
        stage,
        change,
    }
}

/// The PART of these numbers.
fn part_of(link: u32, feeder: u32, flow: u32) -> Edit
    ensures { result ≡ edit.Part link feeder flow }
{
    Edit::Part { link, feeder, flow }
}

/// The CRUISE of these numbers.
fn cruise_of(link: u32, feeder: u32, seconds: u32) -> Edit
    ensures { result ≡ edit.Cruise link feeder seconds }
{
    Edit::Cruise {
        link,
        feeder,
        seconds,
    }
}

/// The WEIGHT of these numbers.
fn weight_of(link: u32, delay: u32, stop: u32) -> Edit
    ensures { result ≡ edit.Weight link (record { delay = delay; stop = stop }) }
{
    let weights = Weights { delay, stop };
    Edit::Weight { link, weights }
}

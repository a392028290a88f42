//! The audit.

ghost use Rattle.std.specs.Prelude.{◌≡◌, ◌+◌, ◌*◌, ◌≤◌, length, IfOk};
ghost use Rattle.transyt_io.specs.Lines.{lines};
ghost use Rattle.transyt_moves.specs.Moves.{move_count};
ghost use Rattle.transyt_audit.specs.Verdict.{given_from, judged, verdict};
ghost use Rattle.transyt_audit.specs.Findings.{steps_from};

use crate::truth::{Finding, Truth};
use crate::verdict::Verdict;
use std::alloc::{AllocError, Global};
use std::sync::ledger::Ledger;
use transyt_io::{is_skipped, next_line};
use transyt_net::Net;
use transyt_steps::Steps;
use transyt_syntax::Code;

/// Compares a table of lines with the certificate of a network, and tells whether it proves that no listed move lowers
/// the index. `line` is the number of END's line, so the table's first line has the next number.
///
/// Lines are compared word by word. Each move's network is evaluated from nothing. An error is want of memory alone.
pub fn audit<L: Ledger>(
    alloc: Global,
    net: &Net,
    table: &[u8],
    line: u32,
    steps: &mut Steps<L>,
) -> Result<Verdict, AllocError>
    requires table { length table.now ≤ 4194304 }
    requires line { line ≤ 4194304 }
    ensures verdict { IfOk result (λ found. found ≡ verdict net.now table.now line) }
    ensures steps { steps.new
        ≤ steps.old + net.now.frame.sweeps * length net.now.links * (move_count net.now + 1) }
    ensures more_steps { steps.old ≤ steps.new }
{
    let Some(_plan) = net.plan() else {
        return Ok(Verdict::No {
            line,
            code: Code::NoPlan,
        });
    };
    let mut truth = Truth::open(alloc, net, steps)?;
    let found = judge(alloc, &mut truth, table, line + 1, steps);
    drop(truth);
    found
}

/// Judges the lines of a table, the first of which has the number `first`.
fn judge<L: Ledger>(
    alloc: Global,
    truth: &mut Truth,
    table: &[u8],
    first: u32,
    steps: &mut Steps<L>,
) -> Result<Verdict, AllocError>
    requires table { length table.now ≤ 4194304 }
    requires first { first ≤ 4194305 }
    ensures verdict { IfOk result
        (λ found. found ≡ judged truth.old (given_from first (lines table.now))
        (first + length (lines table.now))) }
    ensures steps { steps.new ≤ steps.old + steps_from truth.old 0 }
    ensures more_steps { steps.old ≤ steps.new }
{
    let mut rest = table;
    let mut number = first;
    let mut place = 0;
    let mut lower = None;
    while let Some((line, after)) = next_line(rest) {
        if !is_skipped(line) {
            match truth.judge(alloc, place, line, steps)? {
                Finding::Wrong => return Ok(Verdict::No {
                    line: number,
                    code: Code::OtherLine,
                }),
                Finding::Right => {}
                Finding::Lower => lower = Some(lower.unwrap_or(number)),
            }
            place += 1;
        }
        number += 1;
        rest = after;
    }
    Ok(truth.concluded(place, number, lower))
}

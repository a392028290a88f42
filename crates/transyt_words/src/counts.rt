//! The word `counts`.

ghost use Rattle.std.specs.Prelude.{◌≡◌, ◌++◌, IfOk, OnOk};
ghost use Rattle.transyt_words.specs.Counts.{command_lines, counted_line, counts_answer, counts_lines, refused_row};

use crate::answer::Answer;
use crate::case::Case;
use crate::deck_word::DeckWord;
use crate::line::{AnswerLine, add, one};
use std::alloc::{AllocError, Global};
use std::sync::ledger::Ledger;
use std::thread::Threads;
use transyt_counts::{CountStop, Counts, read_counts};
use transyt_io::Sink;
use transyt_net::Edit;
use transyt_sentences::on_row;
use transyt_steps::Steps;
use transyt_syntax::Code;

/// Turns a table of counts after a deck into commands.
#[derive(Clone, Copy, Drop)]
pub struct CountsWord;

/// The line of a refused row: its number and the code.
fn refused_row(row: u32, code: Code) -> AnswerLine
    ensures { result ≡ refused_row row code }
{
    let numbers = [u128::from(row), u128::from(code.number())];
    AnswerLine::new(b"ROW # REFUSED #", &numbers)
}

/// Adds the command of an edit of a flow.
fn add_command(lines: &mut Vec<AnswerLine>, edit: Edit) -> Result<(), AllocError>
    ensures { OnOk result (lines.new.items ≡ lines.old.items ++ command_lines edit) }
{
    match edit {
        Edit::Entry { link, flow } => {
            let numbers = [u128::from(link), u128::from(flow)];
            add(lines, AnswerLine::new(b"ENTRY # #", &numbers))
        }
        Edit::Part { link, feeder, flow } => {
            let numbers = [u128::from(link), u128::from(feeder), u128::from(flow)];
            add(lines, AnswerLine::new(b"PART # # #", &numbers))
        }
        _ => Ok(()),
    }
}

/// How many rows the table has, and how many flows it counts.
fn counted_line(rows: u32, flows: usize) -> AnswerLine
    ensures { result ≡ counted_line rows flows }
{
    AnswerLine::new(b"* COUNTS # #", &[u128::from(rows), flows as u128])
}

/// The lines of what a table comes to.
fn counts_lines(alloc: Global, counts: &Counts) -> Result<Vec<AnswerLine>, AllocError>
    ensures { IfOk result (λ lines. lines.items ≡ counts_lines counts.now) }
{
    let mut lines = Vec::new(alloc);
    for edit in &counts.edits {
        add_command(&mut lines, *edit)?;
    }
    add(&mut lines, counted_line(counts.rows, counts.edits.len()))?;
    Ok(lines)
}

impl DeckWord for CountsWord {
    ghost fits = { λ self. Unit {0} };

    ghost answer = { λ self. counts_answer };

    ghost most = { λ self case. 0 };

    fn judge<R: Threads + Sync, K: Sink, L: Ledger>(
        &self,
        case: &Case<'_, R>,
        _sink: &mut K,
        _steps: &mut Steps<L>,
    ) -> Result<Answer, AllocError> {
        match read_counts(case.alloc, case.table, &case.cut.net) {
            Ok(counts) => Ok(Answer::done(counts_lines(case.alloc, &counts)?)),
            Err(CountStop::Refused { row, code }) => {
                let lines = one(case.alloc, refused_row(row, code))?;
                Ok(Answer::refusal(lines).with_remark(on_row(row, code)))
            }
            Err(CountStop::Memory) => Err(AllocError),
        }
    }
}

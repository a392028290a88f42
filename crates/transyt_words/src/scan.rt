//! The word `scan`.

ghost use Rattle.std.specs.Prelude.{◌≡◌, ◌<◌, length, IfOk};
ghost use Rattle.transyt_words.specs.Scan.{best_line, row_line, scan_answer, table_lines};

use crate::answer::Answer;
use crate::case::Case;
use crate::deck_word::DeckWord;
use crate::line::AnswerLine;
use std::alloc::{AllocError, Global};
use std::sync::ledger::Ledger;
use std::thread::Threads;
use transyt_climbs::{IdleGate, ScanList, ScanRow, ScanWord, Work, least, scan_told};
use transyt_io::Sink;
use transyt_sentences::on_cycle_times;
use transyt_steps::Steps;

/// The line of a row.
fn row_line(row: ScanRow) -> AnswerLine
    ensures { result ≡ row_line row }
{
    let numbers = [
        u128::from(row.cycle),
        row.from,
        u128::from(row.took),
        u128::from(row.looked),
        row.to,
    ];
    if row.local {
        AnswerLine::new(b"CYCLE # FROM # TOOK # LOCAL # TO #", &numbers)
    } else {
        AnswerLine::new(b"CYCLE # FROM # TOOK # BUDGET # TO #", &numbers)
    }
}

/// The last line, by the best row.
fn best_line(row: ScanRow) -> AnswerLine
    ensures { result ≡ best_line row }
{
    AnswerLine::new(b"BEST # #", &[u128::from(row.cycle), row.to])
}

/// The lines of a table: each row, and then the best.
fn table_lines(alloc: Global, rows: &[ScanRow]) -> Result<Vec<AnswerLine>, AllocError>
    requires { 0 < length rows.now }
    ensures { IfOk result (λ lines. lines.items ≡ table_lines rows.now) }
{
    let mut lines = Vec::new(alloc);
    for row in rows {
        lines.push(row_line(*row))?;
    }
    lines.push(best_line(rows[least(rows)]))?;
    Ok(lines)
}

impl DeckWord for ScanWord {
    ghost use Rattle.transyt_climbs.specs.Scan.{IsScan};

    ghost fits = { IsScan };

    ghost answer = { λ self. scan_answer self.times };

    ghost most = { λ self case. 0 };

    fn judge<R: Threads + Sync, K: Sink, L: Ledger>(
        &self,
        case: &Case<'_, R>,
        sink: &mut K,
        _steps: &mut Steps<L>,
    ) -> Result<Answer, AllocError> {
        let work = Work {
            alloc: case.alloc,
            asked: &ScanList { asked: *self },
            net: &case.cut.net,
            gate: &IdleGate,
        };
        let rows = scan_told(case.rt, &work, sink)?;
        let lines = table_lines(case.alloc, &rows)?;
        Ok(Answer::done(lines).with_remark(on_cycle_times()))
    }
}

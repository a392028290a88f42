//! The word `audit`.

ghost use Rattle.std.specs.Prelude.{◌≡◌};
ghost use Rattle.transyt_words.specs.Audit.{audit_answer, audit_line, audit_most};

use crate::answer::Answer;
use crate::case::Case;
use crate::deck_word::DeckWord;
use crate::line::{AnswerLine, one};
use std::alloc::AllocError;
use std::sync::ledger::Ledger;
use std::thread::Threads;
use transyt_audit::{Verdict, audit};
use transyt_io::Sink;
use transyt_sentences::on_audit;
use transyt_steps::Steps;

/// Tells whether the lines after a deck prove that no listed move lowers the index.
#[derive(Clone, Copy, Drop)]
pub struct AuditWord;

/// The line of a verdict.
fn audit_line(verdict: Verdict) -> AnswerLine
    ensures { result ≡ audit_line verdict }
{
    match verdict {
        Verdict::Yes { places, index } => {
            AnswerLine::new(b"AUDIT YES # INDEX #", &[u128::from(places), index])
        }
        Verdict::No { line, code } => {
            let numbers = [u128::from(line), u128::from(code.number())];
            AnswerLine::new(b"AUDIT NO # #", &numbers)
        }
    }
}

impl DeckWord for AuditWord {
    ghost fits = { λ self. Unit {0} };

    ghost answer = { λ self. audit_answer };

    ghost most = { λ self. audit_most };

    fn judge<R: Threads + Sync, K: Sink, L: Ledger>(
        &self,
        case: &Case<'_, R>,
        _sink: &mut K,
        steps: &mut Steps<L>,
    ) -> Result<Answer, AllocError> {
        let verdict = audit(case.alloc, &case.cut.net, case.table, case.cut.line, steps)?;
        let answer = Answer::done(one(case.alloc, audit_line(verdict))?);
        match verdict {
            Verdict::Yes { .. } => Ok(answer),
            Verdict::No { line, code } => Ok(answer.with_remark(on_audit(line, code))),
        }
    }
}

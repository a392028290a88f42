//! A command is judged, and its answer is written: CLIMB and CERT are carried out as they are written.
ghost use Rattle.std.specs.Prelude.{◌≡◌, ◌^◌, ◌≤◌, length, IfOk, IsErrOf, OnOk};
ghost use Rattle.transyt_desks.specs.Desks.{desk_zero};
ghost use Rattle.transyt_io.specs.Prints.{PrintsOn};
ghost use Rattle.transyt_line_answers.specs.Commands.{after_answer, answer_text, line_answer, session_after};
ghost use Rattle.transyt_line_answers.specs.Conditions.{IsOf};
ghost use Rattle.transyt_line_answers.specs.Report.{answer_ends};
ghost use Rattle.transyt_reporter.specs.Conditions.{AreReady, LeavesReady};

use crate::remarks::remark_command;
use crate::workers::AnswerWriter;
use std::sync::ledger::Ledger;
use std::thread::Threads;
use transyt_desks::{Desks, Gate};
use transyt_io::{Failed, Sink};
use transyt_line_answers::{Answer, judge, write_text};
use transyt_outcome::{Ending, Stop};
use transyt_steps::Steps;

impl<R: Threads + Sync, G: Gate> AnswerWriter<'_, R, G> {
    /// Answers a command: it is judged, and then its answer is written.
    pub(crate) fn answer_command<K: Sink, L: Ledger>(
        &mut self,
        desks: &mut Desks,
        command: &[u8],
        sink: &mut K,
        steps: &mut Steps<L>,
    ) -> Result<Option<Ending>, Stop>
        requires ready { AreReady desks.old }
        requires len { length desks.old ≡ self.old.workers.count }
        requires room { (desk_zero desks.old).work ≤ 2 ^ 59 }
        ensures prints { PrintsOn K.written K.faults sink.old sink.new result
            (answer_text (desk_zero desks.old) (line_answer (desk_zero desks.old) command.now)) }
        ensures ends { IfOk result
            (λ end. end ≡ answer_ends (line_answer (desk_zero desks.old) command.now)) }
        ensures state { OnOk result
            (desk_zero desks.new ≡ session_after (desk_zero desks.old) command.now) }
        ensures takes_none { IsErrOf result Stop.Memory → ⊥ }
        ensures workers { self.new.workers.count ≡ self.old.workers.count }
        ensures leaves { LeavesReady 8589934592 (session_after (desk_zero desks.old) command.now)
            desks.old desks.new steps.old steps.new }
    {
        let answer = judge(desks.session_mut(), command, steps);
        self.count(&answer);
        remark_command(self.number, self.refused, &answer, sink);
        match self.write_answer(&answer, desks, sink, steps) {
            Ok(()) => Ok(answer.ending()),
            Err(Failed) => Err(Stop::Write),
        }
    }

    /// Writes the text of an answer; CLIMB and CERT are carried out as they are written.
    ///
    /// On Failed some first bytes of the text were written. It takes no memory.
    fn write_answer<K: Sink, L: Ledger>(
        &mut self,
        answer: &Answer,
        desks: &mut Desks,
        sink: &mut K,
        steps: &mut Steps<L>,
    ) -> Result<(), Failed>
        requires ready { AreReady desks.old }
        requires len { length desks.old ≡ self.old.workers.count }
        requires of { IsOf (desk_zero desks.old) answer.now }
        requires room { (desk_zero desks.old).work ≤ 2 ^ 60 }
        ensures prints { PrintsOn K.written K.faults sink.old sink.new result
            (answer_text (desk_zero desks.old) answer.now) }
        ensures state { OnOk result
            (desk_zero desks.new ≡ after_answer answer.now (desk_zero desks.old)) }
        ensures workers { self.new.workers.count ≡ self.old.workers.count }
        ensures leaves { LeavesReady 8000072000 (after_answer answer.now (desk_zero desks.old))
            desks.old desks.new steps.old steps.new }
    {
        match answer {
            Answer::Climb => self.climb(desks, sink, steps),
            Answer::Cert => self.certify(desks, sink, steps),
            _ => write_text(answer, desks.session(), &mut self.line, sink),
        }
    }
}

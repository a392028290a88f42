//! CLIMB: each step is written before the next look.
ghost use Rattle.std.specs.Prelude.{◌≡◌, ◌≤◌, [], IsSome, OnOk};
ghost use Rattle.transyt_moves.specs.Moves.{move_count};
ghost use Rattle.transyt_climb.specs.Turns.{start_at, step_then};
ghost use Rattle.transyt_desks.specs.Desks.{desk_zero};
ghost use Rattle.transyt_io.specs.Prints.{PrintsOn};
ghost use Rattle.transyt_report.specs.Texts.{end_text};
ghost use Rattle.transyt_line_answers.specs.Commands.{after_answer, steps_text, climb_text, climb_of, budget_of};
ghost use Rattle.transyt_reporter.specs.Conditions.{AreIdle, IsStep, LeavesReady};

use crate::remarks::remark_end;
use crate::workers::AnswerWriter;
use std::sync::ledger::Ledger;
use std::thread::Threads;
use transyt_climb::{Climber, Turn};
use transyt_desks::{Desks, Gate};
use transyt_io::{Failed, LineBuffer, Sink, write_line};
use transyt_line_answers::Answer;
use transyt_net::Net;
use transyt_report::{end_line, took_line};
use transyt_steps::Steps;

/// Writes the line of the step that a turn took, and nothing where it took none.
fn write_step<K: Sink>(turn: Turn, line: &mut LineBuffer, sink: &mut K) -> Result<(), Failed>
    requires { IsStep turn }
    ensures { PrintsOn K.written K.faults sink.old sink.new result
        (steps_text (step_then turn [])) }
{
    let Turn::Took { place, edit, index } = turn else {
        return Ok(());
    };
    took_line(&edit, place, index, line);
    write_line(line, sink)
}

/// How a climb ended: whether no move lowers the index, how many places it looked at, and the index.
#[derive(Clone, Copy, Drop)]
struct ClimbEnd {
    local: bool,
    looked: u32,
    index: u128,
}

impl ClimbEnd {
    /// Writes the last line of the climb.
    fn write<K: Sink>(self, line: &mut LineBuffer, sink: &mut K) -> Result<(), Failed>
        ensures { PrintsOn K.written K.faults sink.old sink.new result
            (end_text self.local self.looked self.index) }
    {
        remark_end(self.local, self.looked, sink);
        end_line(self.local, self.looked, self.index, line);
        write_line(line, sink)
    }
}

/// A climber at the start of a climb by the network's plan.
pub(crate) fn start_climber(net: &Net) -> Climber
    requires plan { IsSome net.now.plan }
    ensures start { result ≡ start_at (budget_of net.now.plan) (move_count net.now) }
    ensures few { budget_of net.now.plan ≤ 1000000 }
{
    let _plan = net.plan();
    let Some(climber) = Climber::start(net) else {
        unreachable!()
    };
    climber
}

impl<R: Threads + Sync, G: Gate> AnswerWriter<'_, R, G> {
    /// Climbs by the network's plan, by rounds of the desks.
    pub(crate) fn climb<K: Sink, L: Ledger>(
        &mut self,
        desks: &mut Desks,
        sink: &mut K,
        steps: &mut Steps<L>,
    ) -> Result<(), Failed>
        requires idle { AreIdle desks.old }
        requires plan { IsSome (desk_zero desks.old).net.plan }
        ensures prints { PrintsOn K.written K.faults sink.old sink.new result
            (climb_text (climb_of (desk_zero desks.old).net)) }
        ensures state { OnOk result
            (desk_zero desks.new ≡ after_answer Answer.Climb (desk_zero desks.old)) }
        ensures workers { self.new.workers.count ≡ self.old.workers.count }
        ensures leaves { LeavesReady 8000072000 (after_answer Answer.Climb (desk_zero desks.old))
            desks.old desks.new steps.old steps.new }
    {
        let mut climber = start_climber(desks.session().net());
        loop {
            let workers = &self.workers;
            let round = desks.stretch_round(workers.rt, &mut climber, workers.gate, steps);
            if round.last.is_end() {
                let end = ClimbEnd {
                    local: round.last.is_local(),
                    looked: climber.looked(),
                    index: desks.session().index(),
                };
                return end.write(&mut self.line, sink);
            }
            write_step(round.last, &mut self.line, sink)?;
        }
    }
}

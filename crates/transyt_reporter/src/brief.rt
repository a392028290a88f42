//! BRIEF: one climb on a network, told in one line.
ghost use Rattle.std.specs.Prelude.{◌≡◌, ◌+◌, ◌≤◌, ◌∷◌, [], length, IsSome, IsErrOf, OnOk, OnErr};
ghost use Rattle.transyt_io.specs.Streams.{Adds, AddsFront, Rose};
ghost use Rattle.transyt_sweep.specs.Sweeps.{index};
ghost use Rattle.transyt_desks.specs.Desks.{desk_zero};
ghost use Rattle.transyt_io.specs.Prints.{PrintsOn};
ghost use Rattle.transyt_io.specs.Forms.{form_line};
ghost use Rattle.transyt_track.specs.Due.{work_of};
ghost use Rattle.transyt_reporter.specs.Brief.{brief_form, brief_text, brief_steps};
ghost use Rattle.transyt_line_answers.specs.Commands.{climb_of};
ghost use Rattle.transyt_reporter.specs.Conditions.{AreIdle};

use crate::climbing::start_climber;
use crate::remarks::remark_end;
use crate::workers::{AnswerWriter, Workers};
use std::alloc::Global;
use std::sync::ledger::Ledger;
use std::thread::Threads;
use transyt_desks::{Desks, Gate, climb_by_rounds};
use transyt_io::{Failed, LineBuffer, Sink, print_form};
use transyt_net::Net;
use transyt_outcome::Stop;
use transyt_session::Session;
use transyt_steps::Steps;

/// A network before the climb: how many nodes and links it has, and its index.
#[derive(Clone, Copy, Drop)]
struct Before {
    nodes: usize,
    links: usize,
    index: u128,
}

/// A climb on a network: the network before it, how many steps it took, how many places it looked at, whether no move
/// lowers the index at its end, and that index.
#[derive(Clone, Copy, Drop)]
struct Brief {
    before: Before,
    took: u32,
    looked: u32,
    local: bool,
    to: u128,
}

/// The network now, as the line tells it.
fn before_climb(session: &Session) -> Before
    ensures nodes { result.nodes ≡ length session.now.net.nodes }
    ensures links { result.links ≡ length session.now.net.links }
    ensures index { result.index ≡ index session.now.net }
{
    let net = session.net();
    Before {
        nodes: net.nodes().len(),
        links: net.links().len(),
        index: session.index(),
    }
}

impl Brief {
    /// Writes the line of the climb, and tells how one goes on that ended with BUDGET.
    fn write<K: Sink>(self, line: &mut LineBuffer, sink: &mut K) -> Result<(), Failed>
        ensures { PrintsOn K.written K.faults sink.old sink.new result
            (form_line (brief_form self.local)
            (self.before.nodes ∷ self.before.links ∷ self.before.index ∷ self.took
            ∷ self.looked ∷ self.to ∷ [])) }
    {
        remark_end(self.local, self.looked, sink);
        let numbers = [
            self.before.nodes as u128,
            self.before.links as u128,
            self.before.index,
            u128::from(self.took),
            u128::from(self.looked),
            self.to,
        ];
        if self.local {
            print_form(
                b"BRIEF # # FROM # TOOK # LOCAL # TO #",
                &numbers,
                line,
                sink,
            )
        } else {
            print_form(
                b"BRIEF # # FROM # TOOK # BUDGET # TO #",
                &numbers,
                line,
                sink,
            )
        }
    }
}

impl<R: Threads + Sync, G: Gate> AnswerWriter<'_, R, G> {
    /// Climbs by the network's plan, and writes the line.
    fn tell_climb<K: Sink, L: Ledger>(
        &mut self,
        desks: &mut Desks,
        sink: &mut K,
        steps: &mut Steps<L>,
    ) -> Result<(), Failed>
        requires idle { AreIdle desks.old }
        requires plan { IsSome (desk_zero desks.old).net.plan }
        ensures prints { PrintsOn K.written K.faults sink.old sink.new result
            (brief_text (desk_zero desks.old).net) }
        ensures steps { length desks.old ≡ 1
            → steps.new ≡ steps.old + work_of (climb_of (desk_zero desks.old).net).looks }
    {
        let before = before_climb(desks.session());
        let mut climber = start_climber(desks.session().net());
        let workers = &self.workers;
        let ended = climb_by_rounds(workers.rt, &mut climber, desks, workers.gate, steps);
        let brief = Brief {
            before,
            took: ended.took,
            looked: climber.looked(),
            local: ended.local,
            to: desks.session().index(),
        };
        brief.write(&mut self.line, sink)
    }
}

/// Climbs once on a network by its plan, with so many workers, and writes the line of it.
///
/// All memory is taken before the line is written. On a failed write some first bytes of the line were written.
pub fn write_brief<R: Threads + Sync, G: Gate, K: Sink, L: Ledger>(
    workers: Workers<'_, R, G>,
    alloc: Global,
    net: Net,
    sink: &mut K,
    steps: &mut Steps<L>,
) -> Result<(), Stop>
    requires plan { IsSome net.plan }
    ensures ok { OnOk result (Adds (K.written sink.old) (K.written sink.new) (brief_text net)) }
    ensures err { OnErr result
        (AddsFront (K.written sink.old) (K.written sink.new) (brief_text net)) }
    ensures sink_later { K.faults sink.old ≤ K.faults sink.new }
    ensures fault { IsErrOf result Stop.Write → Rose (K.faults sink.old) (K.faults sink.new) }
    ensures silent { IsErrOf result Stop.Memory → sink.new ≡ sink.old }
    ensures steps { workers.entry.count ≡ 1
        → OnOk result (steps.new ≡ steps.old + brief_steps net) }
    ensures some_steps { workers.entry.count ≡ 1
        → OnErr result (steps.new ≤ steps.old + brief_steps net) }
{
    let Ok(mut desks) = workers.desks_of(alloc, net, steps) else {
        return Err(Stop::Memory);
    };
    let Ok(mut writer) = AnswerWriter::open(alloc, workers) else {
        drop(desks);
        return Err(Stop::Memory);
    };
    let told = writer.tell_climb(&mut desks, sink, steps);
    drop(writer);
    drop(desks);
    match told {
        Ok(()) => Ok(()),
        Err(Failed) => Err(Stop::Write),
    }
}

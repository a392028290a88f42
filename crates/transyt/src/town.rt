//! The words that make a town: its deck, or one climb on it.
ghost use Rattle.std.specs.Prelude.{◌≡◌, ◌≤◌, false};
ghost use Rattle.transyt_io.specs.Streams.{Rose};
ghost use Rattle.transyt_deck.specs.Cards.{deck_text};
ghost use Rattle.transyt_make.specs.Made.{made};
ghost use Rattle.transyt_reporter.specs.Brief.{brief_text, brief_steps};
ghost use Rattle.transyt_outcome.specs.Outcome.{TextOutcome};
ghost use Rattle.transyt.specs.Numbers.{IsTown};
ghost use Rattle.transyt.specs.Tasks.{TextSteps};

use std::alloc::Global;
use std::sync::ledger::Ledger;
use std::thread::Threads;
use transyt_deck::print_deck;
use transyt_desks::Gate;
use transyt_io::{LineBuffer, Sink};
use transyt_make::make_net;
use transyt_outcome::{Status, Stop};
use transyt_reporter::{Workers, write_brief};
use transyt_steps::Steps;

/// A town that is made from a seed.
#[derive(Clone, Copy, Drop)]
pub(crate) struct Town {
    /// The seed, at most 999,999,999.
    pub(crate) seed: u32,
    /// How many nodes, 1 to 200.
    pub(crate) nodes: u32,
}

/// A climb on a town, and the workers that try its moves.
#[derive(Drop)]
pub(crate) struct Brief<'a, R, G> {
    /// The town.
    pub(crate) town: Town,
    /// The workers.
    pub(crate) workers: Workers<'a, R, G>,
}

/// Writes the deck text of a town. All memory is taken before the first line is written.
#[inline(never)]
pub(crate) fn write_made<K: Sink>(alloc: Global, town: Town, sink: &mut K) -> Status
    requires { IsTown town }
    ensures outcome { TextOutcome (deck_text (made town.seed town.nodes)) false (K.written sink.old)
        (K.written sink.new) result }
    ensures later { K.faults sink.old ≤ K.faults sink.new }
    ensures write_fault { result ≡ Status.WriteFault
        → Rose (K.faults sink.old) (K.faults sink.new) }
    ensures silent { result ≡ Status.NoMemory → sink.new ≡ sink.old }
{
    let Ok(net) = make_net(alloc, town.seed, town.nodes) else {
        return Status::NoMemory;
    };
    let Ok(mut line) = LineBuffer::open(alloc) else {
        drop(net);
        return Status::NoMemory;
    };
    let printed = print_deck(&net, &mut line, sink);
    drop(line);
    drop(net);
    match printed {
        Ok(()) => Status::Done,
        Err(_) => Status::WriteFault,
    }
}

impl<'a, R: Threads + Sync, G: Gate> Brief<'a, R, G> {
    /// Climbs once, and writes the line of the climb. All memory is taken before it is written.
    #[inline(never)]
    pub(crate) fn write<K: Sink, L: Ledger>(
        self,
        alloc: Global,
        sink: &mut K,
        steps: &mut Steps<L>,
    ) -> Status
        requires { IsTown self.town }
        ensures outcome { TextOutcome (brief_text (made self.entry.town.seed self.entry.town.nodes))
            false (K.written sink.old) (K.written sink.new) result }
        ensures later { K.faults sink.old ≤ K.faults sink.new }
        ensures write_fault { result ≡ Status.WriteFault
            → Rose (K.faults sink.old) (K.faults sink.new) }
        ensures silent { result ≡ Status.NoMemory → sink.new ≡ sink.old }
        ensures steps { self.entry.workers.count ≡ 1
            → TextSteps (brief_steps (made self.entry.town.seed self.entry.town.nodes))
            steps.old steps.new result }
    {
        let Brief { town, workers } = self;
        let Ok(net) = make_net(alloc, town.seed, town.nodes) else {
            return Status::NoMemory;
        };
        match write_brief(workers, alloc, net, sink, steps) {
            Ok(()) => Status::Done,
            Err(Stop::Write) => Status::WriteFault,
            Err(Stop::Memory) => Status::NoMemory,
        }
    }
}

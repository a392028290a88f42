//! The word `cycles`.

ghost use Rattle.std.specs.Prelude.{◌≡◌};
ghost use Rattle.transyt_words.specs.Plans.{network_at};

use crate::answer::Answer;
use crate::case::Case;
use crate::deck_word::DeckWord;
use crate::table::{Numbered, TableList, answer_case};
use std::alloc::{AllocError, Global};
use std::sync::ledger::Ledger;
use std::thread::Threads;
use transyt_climbs::{NetworkAt, NetworkList, ScanList, ScanWord};
use transyt_io::Sink;
use transyt_net::Net;
use transyt_steps::Steps;
use transyt_variants::{AtCycle, cycle_net};

/// Climbs over cycle times as `scan` does, but at steps that keep their length in seconds.
#[derive(Clone, Copy, Drop)]
pub struct CyclesWord {
    /// The cycle times, and how many workers climb.
    pub asked: ScanWord,
}

/// The network of a cycle time to climb on, or the reason why there is none.
fn network_at(at: AtCycle) -> NetworkAt
    ensures { result ≡ network_at at }
{
    match at {
        AtCycle::Plan(net) => NetworkAt::Plan(net),
        AtCycle::Barred { node } => NetworkAt::Barred { node },
        AtCycle::NoPlan => NetworkAt::NoPlan,
    }
}

/// The networks of cycle times that may be asked for.
#[derive(Clone, Copy, Drop)]
struct CyclesList {
    scan: ScanList,
}

impl NetworkList for CyclesList {
    ghost use Rattle.transyt_words.specs.Plans.{cycles};

    ghost list = { λ self. cycles self.scan.asked.times };

    fn noun(&self) -> &'static str {
        self.scan.noun()
    }

    fn workers(&self) -> usize {
        self.scan.workers()
    }

    fn count(&self) -> usize {
        self.scan.count()
    }

    fn number(&self, place: usize) -> u32 {
        self.scan.number(place)
    }

    fn network(&self, alloc: Global, net: &Net, place: usize) -> Result<NetworkAt, AllocError> {
        let at = cycle_net(alloc, net, self.scan.asked.times.at(place))?;
        Ok(network_at(at))
    }
}

impl TableList for CyclesList {
    ghost use Rattle.transyt_words.specs.declared.table.Numbered.TheVariants.{Cycles};

    ghost kind = { λ self. Cycles };

    fn numbered(&self) -> Numbered {
        Numbered::Cycles
    }
}

impl DeckWord for CyclesWord {
    ghost use Rattle.transyt_climbs.specs.Scan.{IsScan};
    ghost use Rattle.transyt_words.specs.Plans.{cycles_answer};

    ghost fits = { λ self. IsScan self.asked };

    ghost answer = { λ self. cycles_answer self.asked.times };

    ghost most = { λ self case. 0 };

    fn judge<R: Threads + Sync, K: Sink, L: Ledger>(
        &self,
        case: &Case<'_, R>,
        sink: &mut K,
        _steps: &mut Steps<L>,
    ) -> Result<Answer, AllocError> {
        let scan = ScanList { asked: self.asked };
        answer_case(case, &CyclesList { scan }, sink)
    }
}

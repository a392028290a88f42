//! The whole evaluation of a network.

ghost use Rattle.std.specs.Prelude.{◌≡◌, ◌+◌, ◌*◌, length, IfOk, OnOk, OnErr, None};
ghost use Rattle.transyt_sweep.specs.Sweeps.{index};
ghost use Rattle.transyt_kept.specs.Rows.{index_in};
ghost use Rattle.transyt_sweep.specs.Front.{AreFilled, AreEvaluation};

use crate::rows::RowsOfNetwork;
use crate::scratch::Scratch;
use crate::sweep::Sweep;
use crate::working::cell;
use std::alloc::{AllocError, Global};
use std::sync::ledger::Ledger;
use transyt_kept::Rows;
use transyt_net::Net;
use transyt_steps::Steps;

/// The whole evaluation of a network, with no mark: each link at each sweep, one after another.
///
/// All memory is taken before the first cell is worked out, so an error costs no step.
pub fn full<L: Ledger>(alloc: Global, net: &Net, steps: &mut Steps<L>) -> Result<Rows, AllocError>
    ensures rows { IfOk result (λ rows. AreEvaluation net.now rows.now) }
    ensures unmarked { IfOk result (λ rows. rows.marked ≡ None) }
    ensures index { IfOk result (λ rows. index_in rows.now ≡ index net.now) }
    ensures ok { OnOk result (steps.new ≡ steps.old + net.now.frame.sweeps * length net.now.links) }
    ensures err { OnErr result (steps.new ≡ steps.old) }
{
    let mut rows = Rows::open(alloc, net)?;
    let mut scratch = match Scratch::open(alloc, net) {
        Ok(scratch) => scratch,
        Err(fault) => {
            drop(rows);
            return Err(fault);
        }
    };
    for sweep in 1..net.frame().sweeps + 1 {
        let one = Sweep { net, number: sweep };
        one.fill(&mut rows, &mut scratch, steps);
    }
    drop(scratch);
    Ok(rows)
}

impl Sweep<'_> {
    /// Works out each link at the sweep.
    fn fill<L: Ledger>(&self, rows: &mut Rows, scratch: &mut Scratch, steps: &mut Steps<L>)
        requires filled { AreFilled self.now.net.now self.now.number 0 rows.old.now }
        requires step_count { length scratch.old.arrivals ≡ self.now.net.now.frame.step_count }
        ensures filled { AreFilled self.now.net.now (self.now.number + 1) 0 rows.new.now }
        ensures marked { rows.new.marked ≡ rows.old.marked }
        ensures step_count { length scratch.new.arrivals ≡ self.now.net.now.frame.step_count }
        ensures steps { steps.new ≡ steps.old + length self.now.net.now.links }
    {
        let net = self.net;
        let sweep = self.number;
        for link in 0..net.links().len() {
            cell(net, link, sweep, rows, scratch, steps);
            rows.place(sweep, link, scratch);
        }
    }
}

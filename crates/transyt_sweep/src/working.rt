//! One link at one sweep: the cell of which an evaluation is made.

ghost use Rattle.std.specs.Prelude.{◌≡◌, ◌+◌, ◌<◌, ◌≤◌, length};
ghost use Rattle.transyt_profile.specs.StopLine.{arrivals_of, queues, outs};
ghost use Rattle.transyt_sweep.specs.Cell.{go, cell_by};
ghost use Rattle.transyt_sweep.specs.Inflow.{read_by};
ghost use Rattle.transyt_sweep.specs.Reading.{Fits, read_in};
ghost use Rattle.transyt_sweep.specs.Scratch.{AreTotals};

use crate::cell_rows::CellRows;
use crate::figures::{LazyFigures, weights_of};
use crate::inputs::Inputs;
use crate::scratch::Scratch;
use crate::sending::link_place;
use std::sync::ledger::Ledger;
use transyt_kept::Rows;
use transyt_net::Net;
use transyt_profile::{Flow, Totals, cut, queue};
use transyt_stage::{fill_go, give_way};
use transyt_steps::Steps;

/// Works out one link at one sweep, from the rows that it reads. It takes no memory.
///
/// Arrivals, GO, the queue, departures and the figures are left in `scratch`, whatever the sweep. It is one step of the
/// counter. The queue at the stop line is from LR 253; the order of the sweeps, the cut and the rule of giving way are
/// this project's own.
pub fn cell<L: Ledger>(
    net: &Net,
    link: usize,
    sweep: u32,
    rows: &Rows,
    scratch: &mut Scratch,
    steps: &mut Steps<L>,
)
    requires link { link < length net.now.links }
    requires first { 1 ≤ sweep }
    requires last { sweep ≤ net.now.frame.sweeps }
    requires fits { Fits net.now rows.now.now }
    requires step_count { length scratch.old.arrivals ≡ net.now.frame.step_count }
    ensures value { scratch.new ≡ cell_by net.now (read_in rows.now.now sweep link) link }
    ensures steps { steps.new ≡ steps.old + 1 }
{
    let inputs = Inputs {
        net,
        rows,
        link,
        sweep,
        step_count: net.frame().step_count as usize,
    };
    inputs.fill_inflow(&mut scratch.factors, &mut scratch.room, &mut scratch.rows);
    fill_go_under_rule(&inputs, &mut scratch.rows);
    let totals = work_out_queue(&mut scratch.rows);
    scratch.asked = LazyFigures::Open(weights_of(&inputs), totals);
    steps.tick();
}

/// Works out the queue and the departures from arrivals and GO. Returns the sums of both over a cycle: where more arrives
/// than GO lets pass, `cut` has the arrivals after the cut.
fn work_out_queue(rows: &mut CellRows) -> Totals
    ensures arrivals { rows.new.arrivals ≡ rows.old.arrivals }
    ensures go { rows.new.go ≡ rows.old.go }
    ensures queue { rows.new.queue.items
        ≡ queues (arrivals_of rows.new.arrivals.items rows.new.go.items) rows.new.go.items }
    ensures departures { rows.new.departures.items
        ≡ outs (arrivals_of rows.new.arrivals.items rows.new.go.items) rows.new.go.items }
    ensures totals { AreTotals rows.new result }
{
    let flow = Flow {
        arrivals: &rows.arrivals,
        go: &rows.go,
    };
    let totals = cut(&flow, &mut rows.cut);
    if totals.more_comes() {
        queue(&rows.cut, &rows.go, &mut rows.queue, &mut rows.departures);
    } else {
        queue(
            &rows.arrivals,
            &rows.go,
            &mut rows.queue,
            &mut rows.departures,
        );
    }
    totals
}

/// Fills in the GO of a link: its green capacity, less the part that its rule takes off.
fn fill_go_under_rule(inputs: &Inputs<'_>, rows: &mut CellRows)
    requires { length rows.old.arrivals.items ≡ inputs.now.step_count }
    ensures arrivals { rows.new.arrivals ≡ rows.old.arrivals }
    ensures go { rows.new.go.items ≡ go inputs.now.net.now (read_by inputs.now) inputs.now.link }
{
    let net = inputs.net;
    fill_go(net, inputs.link, &mut rows.go);
    let at = net.link(inputs.link);
    if let Some(rule) = at.gives_way {
        let other = link_place(inputs, rule.other);
        let departures = inputs.read(other);
        give_way(departures, rule.percent, &mut rows.go);
    }
}

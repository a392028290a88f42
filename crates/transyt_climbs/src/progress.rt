//! How far the climbs of a run are, and how they ended, told to a person.

ghost use Rattle.std.specs.Prelude.{◌≡◌};

use crate::batching::FEWEST_CLIMBS;
use crate::networks::NetworkList;
use crate::ranking::best;
use crate::row::NetworkRow;
use crate::work::Work;
use transyt_io::Sink;

/// Tells the sink how far a run is, by the rows so far, or how its climbs ended where these are all of them.
pub(crate) fn tell<P: NetworkList, B, K: Sink>(
    work: &Work<'_, P, B>,
    rows: &[NetworkRow],
    sink: &mut K,
)
    ensures written { K.written sink.new ≡ K.written sink.old }
    ensures faults { K.faults sink.new ≡ K.faults sink.old }
{
    if rows.len() < work.asked.count() {
        tell_progress(work, rows, sink);
    } else {
        tell_spent(work, rows, sink);
    }
}

/// Tells how many climbs of a run are done, and the least index at the end of one of them; nothing of fewer than four.
fn tell_progress<P: NetworkList, B, K: Sink>(
    work: &Work<'_, P, B>,
    rows: &[NetworkRow],
    sink: &mut K,
)
    ensures written { K.written sink.new ≡ K.written sink.old }
    ensures faults { K.faults sink.new ≡ K.faults sink.old }
{
    let (noun, done, count) = (work.asked.noun(), rows.len(), work.asked.count());
    if count < FEWEST_CLIMBS {
        return;
    }
    let Some(best) = best(rows) else {
        return;
    };
    let least = best.to;
    if let Ok(text) = format!(in work.alloc; "{noun} {done} of {count}, least so far {least}") {
        sink.remark(text.as_bytes());
    }
}

/// Tells how many climbs ended with BUDGET, if any did, and how to go on.
fn tell_spent<P, B, K: Sink>(work: &Work<'_, P, B>, rows: &[NetworkRow], sink: &mut K)
    ensures written { K.written sink.new ≡ K.written sink.old }
    ensures faults { K.faults sink.new ≡ K.faults sink.old }
{
    let (spent, count) = (spent_count(rows), rows.len());
    if spent == 0 {
        return;
    }
    if let Ok(text) = format!(in work.alloc;
        "{spent} of {count} climbs spent the budget before LOCAL: CLIMB again, or raise STEPS' budget"
    ) {
        sink.remark(text.as_bytes());
    }
}

/// How many climbs ended with BUDGET.
fn spent_count(rows: &[NetworkRow]) -> usize {
    let mut count: usize = 0;
    for row in rows {
        if let NetworkRow::Climbed(climbed) = row
            && !climbed.local
        {
            count = count.saturating_add(1);
        }
    }
    count
}

//! The table of the climbs, made batch by batch.

ghost use Rattle.std.specs.Prelude.{◌≡◌, ◌<◌, ◌*◌, ◌+◌, ℕ, length, Option, IfOk, slice_index_or};
ghost use Rattle.std.specs.Thread.{IsSync};
ghost use Rattle.transyt_climbs.specs.Climbs.{table};
ghost use Rattle.transyt_climbs.specs.Deals.{Holds, batch_row, first_rows};
ghost use Rattle.transyt_climbs.specs.declared.row.NetworkRow.{NetworkRow};

use crate::gate::ClimbGate;
use crate::networks::NetworkList;
use crate::progress::tell;
use crate::row::NetworkRow;
use crate::work::{Batch, Work};
use std::alloc::AllocError;
use std::thread::{self, Threads};
use transyt_io::Sink;

/// Climbs on the network in a slot. No row is left where the slot has no place or memory is out.
fn fill<P: NetworkList, B: ClimbGate>(
    batch: &Batch<'_, P, B>,
    slot: usize,
    row: &mut Option<NetworkRow>,
)
    requires { slot < batch.now.deal.workers * batch.now.deal.turns }
    ensures { Holds (batch_row (P.list batch.now.work.now.asked.now)
        batch.now.work.now.net.now batch.now.first) batch.now.deal slot row.new }
{
    *row = match batch.deal.place_at(slot) {
        Some(place) => batch.work.pass_gate(batch.first + place),
        None => None,
    };
}

/// Climbs on all networks of a batch, each worker on its own.
fn fill_all<R: Threads + Sync, P: NetworkList, B: ClimbGate>(
    rt: &R,
    batch: &Batch<'_, P, B>,
    rows: &mut [Option<NetworkRow>],
)
    requires { length rows.old ≡ batch.now.deal.workers * batch.now.deal.turns }
    ensures len { length rows.new ≡ length rows.old }
    ensures made { (k : ℕ) (d : Option NetworkRow) → k < length rows.old
        → Holds (batch_row (P.list batch.now.work.now.asked.now)
        batch.now.work.now.net.now batch.now.first) batch.now.deal k
        (slice_index_or rows.new k d) }
{
    thread::for_each_mut(
        rt,
        rows,
        batch.deal.workers,
        &|slot: usize, row: &mut Option<NetworkRow>|
            requires { slot < batch.now.deal.workers * batch.now.deal.turns }
        { fill(batch, slot, row) },
    );
}

/// Adds the rows of a batch to those of the places before it, in the order of their places; out of memory where one
/// wasn't made.
fn gather<P: NetworkList, B>(
    batch: &Batch<'_, P, B>,
    slots: &[Option<NetworkRow>],
    rows: &mut Vec<NetworkRow>,
) -> Result<(), AllocError>
    requires slots_len { length slots.now ≡ batch.now.deal.workers * batch.now.deal.turns }
    requires made { (k : ℕ) (d : Option NetworkRow) → k < length slots.now
        → Holds (batch_row (P.list batch.now.work.now.asked.now)
        batch.now.work.now.net.now batch.now.first) batch.now.deal k
        (slice_index_or slots.now k d) }
    requires before { rows.old.items ≡ first_rows (P.list batch.now.work.now.asked.now)
        batch.now.work.now.net.now batch.now.first }
    ensures { IfOk result (λ _. rows.new.items
        ≡ first_rows (P.list batch.now.work.now.asked.now) batch.now.work.now.net.now
        (batch.now.first + batch.now.deal.count)) }
{
    for place in 0..batch.deal.count {
        let Some(row) = slots[batch.deal.slot_of(place)] else {
            return Err(AllocError);
        };
        rows.push(row)?;
    }
    Ok(())
}

/// Climbs on the networks of a batch, and adds their rows to those of the places before it.
fn climb_batch<R: Threads + Sync, P: NetworkList, B: ClimbGate>(
    rt: &R,
    batch: &Batch<'_, P, B>,
    rows: &mut Vec<NetworkRow>,
) -> Result<(), AllocError>
    requires { rows.old.items ≡ first_rows (P.list batch.now.work.now.asked.now)
        batch.now.work.now.net.now batch.now.first }
    ensures { IfOk result (λ _. rows.new.items
        ≡ first_rows (P.list batch.now.work.now.asked.now) batch.now.work.now.net.now
        (batch.now.first + batch.now.deal.count)) }
{
    let count = batch.deal.workers * batch.deal.turns;
    let mut slots = vec![in batch.work.alloc; None; count]?;
    fill_all(rt, batch, slots.as_mut_slice());
    gather(batch, &slots, rows)
}

/// The table of a network: a row for each network that is made out of it, in their order.
///
/// The networks are climbed on in batches. Those of a batch are dealt to the workers from the last one on, and each climb
/// stands between entering and leaving the gate. It is the table of one worker for every number of them. Out of memory
/// in one climb is the answer for all.
///
/// After each batch but the last the sink is told how far the run is: how many climbs are done, and the least index at the
/// end of one of them. That is fifty times at most. Of fewer than four climbs nothing is told.
pub fn climb_networks<R: Threads + Sync, P: NetworkList, B: ClimbGate, K: Sink>(
    rt: &R,
    work: &Work<'_, P, B>,
    sink: &mut K,
) -> Result<Vec<NetworkRow>, AllocError>
    ensures table { IfOk result (λ rows. rows.items
        ≡ table (P.list work.now.asked.now) work.now.net.now) }
    ensures all { IfOk result (λ rows. length rows.items ≡ (P.list work.now.asked.now).count) }
    ensures written { K.written sink.new ≡ K.written sink.old }
    ensures faults { K.faults sink.new ≡ K.faults sink.old }
{
    let mut rows = Vec::new(work.alloc);
    while rows.len() < work.asked.count() {
        let batch = Batch::from(&*work, rows.len());
        climb_batch(rt, &batch, &mut rows)?;
        tell(work, &rows, sink);
    }
    Ok(rows)
}

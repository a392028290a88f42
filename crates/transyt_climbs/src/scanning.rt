//! The table of climbs at cycle times.

ghost use Rattle.std.specs.Prelude.{◌≡◌, ◌<◌, map, IfOk, vec_len};
ghost use Rattle.transyt_climbs.specs.Scan.{IsScan, asking, scan_row, scan_row_of, table};
ghost use Rattle.transyt_climbs.specs.Times.{times_of};

use crate::gate::ClimbGate;
use crate::row::{Climbed, NetworkRow};
use crate::scan_list::ScanList;
use crate::scan_row::ScanRow;
use crate::scan_word::ScanWord;
use crate::table::climb_networks;
use crate::times::CycleTimes;
use crate::work::Work;
use std::alloc::{AllocError, Global};
use std::thread::Threads;
use transyt_io::{Sink, TallySink};
use transyt_net::Net;

/// A climb as a row of the table.
fn scan_row(climbed: Climbed) -> ScanRow
    ensures { result ≡ scan_row climbed }
{
    ScanRow {
        cycle: climbed.number,
        from: climbed.from,
        took: climbed.took,
        local: climbed.local,
        looked: climbed.looked,
        to: climbed.to,
    }
}

/// The row of a cycle time, at each of which there is a network to climb on.
fn scan_row_of(row: NetworkRow) -> ScanRow
    ensures { result ≡ scan_row_of row }
{
    match row {
        NetworkRow::Climbed(climbed) => scan_row(climbed),
        NetworkRow::Barred { number, .. } | NetworkRow::NoPlan { number } => {
            ScanRow {
                cycle: number,
                from: 0,
                took: 0,
                local: true,
                looked: 0,
                to: 0,
            }
        }
    }
}

/// All rows.
fn scan_rows(alloc: Global, rows: &[NetworkRow]) -> Result<Vec<ScanRow>, AllocError>
    ensures { IfOk result (λ made. made.items ≡ map scan_row_of rows.now) }
{
    let mut made = Vec::new(alloc);
    for row in rows {
        made.push(scan_row_of(*row))?;
    }
    Ok(made)
}

/// The table of a network: a row for each cycle time that is asked for, in their order. The sink is told how far the
/// climbs are. Out of memory in one climb is the answer for all.
pub fn scan_told<R: Threads + Sync, B: ClimbGate, K: Sink>(
    rt: &R,
    work: &Work<'_, ScanList, B>,
    sink: &mut K,
) -> Result<Vec<ScanRow>, AllocError>
    ensures table { IfOk result (λ rows. rows.items
        ≡ table work.now.net.now work.now.asked.now.asked.times) }
    ensures some { IfOk result (λ rows. 0 < vec_len rows) }
    ensures written { K.written sink.new ≡ K.written sink.old }
    ensures faults { K.faults sink.new ≡ K.faults sink.old }
{
    let rows = climb_networks(rt, work, sink)?;
    scan_rows(work.alloc, &rows)
}

/// The table of a network: a row for each cycle time from `low` to `high` by the step `by`, in their order, all in
/// seconds.
///
/// Each climb stands between entering and leaving the gate, which are told the cycle time. It is the table of one
/// worker for every number of them. Out of memory in one climb is the answer for all.
pub fn scan<R: Threads + Sync, B: ClimbGate>(
    rt: &R,
    alloc: Global,
    net: &Net,
    low: u32,
    high: u32,
    by: u32,
    workers: u32,
    gate: &B,
) -> Result<Vec<ScanRow>, AllocError>
    requires { IsScan (asking workers low high by) }
    ensures table { IfOk result (λ rows. rows.items ≡ table net.now (times_of low high by)) }
    ensures some { IfOk result (λ rows. 0 < vec_len rows) }
{
    let times = CycleTimes { low, high, by };
    let asked = ScanList {
        asked: ScanWord { workers, times },
    };
    let work = Work {
        alloc,
        asked: &asked,
        net,
        gate,
    };
    scan_told(rt, &work, &mut TallySink::new())
}

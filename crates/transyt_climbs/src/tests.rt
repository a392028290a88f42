//! Two climbs under way at once.

use crate::{Bench, ScanRow, least, scan};
use std::alloc::Global;
use std::sync::atomic::{AtomicU64, Ordering};
use std::thread::{self, Threads};
use transyt_deck::cut_deck;

/// One junction with a link.
const ONE: &str =
    "CYCLE 60 10 1 60 100\nNODE 1 0\nSTAGE 0 1 2\nSTAGE 5 1 2\nLINK 1 1 360 1800 1 1 1\nSTEPS 100 1\nEND\n";

/// How often a climb looks whether the other has come before it goes on alone.
const LOOKS: u32 = 2_000_000;

/// A gate at which the climbs of cycle times 60 and 120 wait for each other, for so many looks at most. It counts the
/// entries of both, and how often one went on alone.
#[derive(Drop)]
struct Meeting {
    short: AtomicU64,
    long: AtomicU64,
    alone: AtomicU64,
}

/// Adds an entry, and waits until the other climb has as many.
fn meet(own: &AtomicU64, other: &AtomicU64, alone: &AtomicU64) {
    let entries = own.fetch_add(1, Ordering::SeqCst).wrapping_add(1);
    for _ in 0..LOOKS {
        if other.load(Ordering::SeqCst) >= entries {
            return;
        }
        thread::yield_now();
    }
    alone.fetch_add(1, Ordering::SeqCst);
}

impl Bench for Meeting {
    fn enter(&self, cycle: u32) {
        match cycle {
            60 => meet(&self.short, &self.long, &self.alone),
            120 => meet(&self.long, &self.short, &self.alone),
            _ => {}
        }
    }

    fn leave(&self, _cycle: u32) {}
}

/// Climbs at cycle times 60 and 120 with two workers who wait for each other: the best row, the entries of both, and
/// how often one had gone on alone.
fn climb_together<R: Threads + Sync>(rt: &R, alloc: Global) -> Option<(ScanRow, (u64, u64, u64))> {
    let Ok(cut) = cut_deck(alloc, ONE.as_bytes()) else {
        return None;
    };
    let gate = Meeting {
        short: AtomicU64::new(0),
        long: AtomicU64::new(0),
        alone: AtomicU64::new(0),
    };
    let Ok(rows) = scan(rt, alloc, &cut.net, 60, 120, 60, 2, &gate) else {
        return None;
    };
    let entries = (
        gate.short.load(Ordering::SeqCst),
        gate.long.load(Ordering::SeqCst),
        gate.alone.load(Ordering::SeqCst),
    );
    Some((rows[least(&rows)], entries))
}

#[test]
fn two_climbs_are_under_way_at_once(rt: HostRuntime) {
    let best = ScanRow {
        cycle: 60,
        from: 1948618,
        took: 2,
        local: true,
        looked: 11,
        to: 889826,
    };
    let found = climb_together(&rt, rt.alloc());
    assert_eq!(rt; found, Some((best, (1, 1, 0))));
}

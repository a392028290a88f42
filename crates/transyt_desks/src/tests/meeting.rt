//! A gate at which two desks wait for each other.

use crate::Gate;
use std::sync::atomic::{AtomicU64, Ordering};
use std::thread;

/// How often a desk looks whether the other has come before it goes on alone.
const LOOKS: u32 = 2_000_000;

/// A gate at which desks 0 and 1 wait for each other, for so many looks at most. It counts the entries of both, and how
/// often one went on alone.
#[derive(Drop)]
pub(super) struct Meeting {
    zero: AtomicU64,
    one: AtomicU64,
    alone: AtomicU64,
}

impl Meeting {
    /// A gate that no desk has passed.
    pub(super) fn new() -> Meeting {
        Meeting {
            zero: AtomicU64::new(0),
            one: AtomicU64::new(0),
            alone: AtomicU64::new(0),
        }
    }

    /// The entries of desk 0 and of desk 1, and how often one went on alone.
    pub(super) fn counts(&self) -> [u64; 3] {
        [
            self.zero.load(Ordering::SeqCst),
            self.one.load(Ordering::SeqCst),
            self.alone.load(Ordering::SeqCst),
        ]
    }
}

/// Waits until a desk has so many entries; whether it came.
fn comes(desk: &AtomicU64, entries: u64) -> bool {
    for _ in 0..LOOKS {
        if desk.load(Ordering::SeqCst) >= entries {
            return true;
        }
        thread::yield_now();
    }
    false
}

/// Adds an entry, and waits until the other desk has as many.
fn meet(own: &AtomicU64, other: &AtomicU64, alone: &AtomicU64) {
    let entries = own.fetch_add(1, Ordering::SeqCst).wrapping_add(1);
    if !comes(other, entries) {
        alone.fetch_add(1, Ordering::SeqCst);
    }
}

impl Gate for Meeting {
    fn enter(&self, desk: u32) {
        match desk {
            0 => meet(&self.zero, &self.one, &self.alone),
            1 => meet(&self.one, &self.zero, &self.alone),
            _ => {}
        }
    }

    fn leave(&self, _desk: u32) {}
}

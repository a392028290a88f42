//! A gate at which the first two desks wait for each other.

use std::sync::atomic::{AtomicU64, Ordering};
use std::thread;
use transyt::Gate;

/// How often a desk looks whether the other has come before it goes on alone.
const LOOKS: u32 = 10_000_000;

/// A gate that counts how often desks 0 and 1 enter. Each of the two is held at its first entry until the other has
/// entered, for so many looks at most; where they run out, which is before its second entry, that is counted too.
#[derive(Drop)]
pub(crate) struct Meeting {
    zero: AtomicU64,
    one: AtomicU64,
    alone: AtomicU64,
}

impl Meeting {
    /// A gate that no desk has entered.
    pub(crate) fn new() -> Meeting {
        Meeting {
            zero: AtomicU64::new(0),
            one: AtomicU64::new(0),
            alone: AtomicU64::new(0),
        }
    }

    /// Whether both desks have entered.
    pub(crate) fn both_came(&self) -> bool {
        self.zero.load(Ordering::SeqCst) > 0 && self.one.load(Ordering::SeqCst) > 0
    }

    /// How often a desk went on alone.
    pub(crate) fn alone(&self) -> u64 {
        self.alone.load(Ordering::SeqCst)
    }

    /// Adds an entry to `own`, and waits until the other desk has come.
    fn meet(&self, own: &AtomicU64, other: &AtomicU64) {
        own.fetch_add(1, Ordering::SeqCst);
        for _ in 0..LOOKS {
            if other.load(Ordering::SeqCst) > 0 {
                return;
            }
            thread::yield_now();
        }
        self.alone.fetch_add(1, Ordering::SeqCst);
    }
}

impl Gate for Meeting {
    fn enter(&self, desk: u32) {
        match desk {
            0 => self.meet(&self.zero, &self.one),
            1 => self.meet(&self.one, &self.zero),
            _ => {}
        }
    }

    fn leave(&self, _desk: u32) {}
}

//! A sink that only counts.
ghost use Rattle.std.specs.Prelude.{◌≡◌, ◌<◌, ◌≤◌, ◌+◌, None, Ok, IfOk, length, min};
ghost use Rattle.transyt_io.specs.Streams.{Writes, CountsFault, last_count};

use crate::streams::{Failed, Sink};
use std::marker::Model;

/// A sink that takes every piece whole, never fails, and keeps only the number of bytes.
///
/// Contracts see it as that number. It tells no bytes, and its count of faults is 0.
#[derive(Drop)]
pub struct TallySink {
    taken: u128,
}

impl Model for TallySink {
    ghost use Rattle.std.specs.Prelude.{ℕ};

    ghost Value = { ℕ };

    ghost view = { λ s. s.taken };
}

impl TallySink {
    /// A sink that took nothing.
    pub fn new() -> TallySink
        ensures { result ≡ 0 }
    {
        TallySink { taken: 0 }
    }

    /// How many bytes it took. The number stays at the last value of a `u128`.
    pub fn taken(&self) -> u128
        ensures { result ≡ self.now }
    {
        self.taken
    }
}

impl Sink for TallySink {
    ghost written = { λ _. None };

    ghost faults = { λ _. 0 };

    fn write(&mut self, piece: &[u8]) -> Result<usize, Failed>
        requires { 0 < length piece.now }
        ensures bound { IfOk result (λ n. (0 < n) × (n ≤ length piece.now)) }
        ensures bytes { Writes None None result piece.now }
        ensures cause { CountsFault 0 0 result }
        ensures most { 0 ≤ last_count }
        ensures never_fails { result ≡ Ok (length piece.now) }
        ensures after { self.new ≡ min (self.old + length piece.now)
            340282366920938463463374607431768211455 }
    {
        self.taken = self.taken.saturating_add(piece.len() as u128);
        Ok(piece.len())
    }
}

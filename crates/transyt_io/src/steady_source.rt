//! A source over bytes in memory that never fails.
ghost use Rattle.std.specs.Prelude.{◌≡◌, ◌<◌, ◌≤◌, Some, IsOk, IfOk, length, min};
ghost use Rattle.transyt_io.specs.Streams.{Reads, TellsLast, CountsFault, last_count};
ghost use Rattle.transyt_io.specs.Memory.{stock_after};

use crate::streams::{Failed, Source};
use std::marker::Model;

/// Bytes in memory, of which each call gives as many as fit.
///
/// Contracts see it as a `Stock`: the bytes left, and how many the last call gave. Its count of faults is 0.
#[derive(Drop)]
pub struct SteadySource {
    bytes: Vec<u8>,
    at: usize,
    last: usize,
}

impl Model for SteadySource {
    ghost use Rattle.std.specs.Prelude.{◌≤◌, drop, vec_len};
    ghost use Rattle.transyt_io.specs.Memory.{Stock};

    ghost Value = { Stock };

    ghost view = { λ s. record { left = drop s.at s.bytes.items; last = s.last } };

    ghost invariant = { λ s. s.at ≤ vec_len s.bytes };
}

impl SteadySource {
    /// A source of `bytes`.
    pub fn new(bytes: Vec<u8>) -> SteadySource
        ensures { result ≡ record { left = bytes.items; last = 0 } }
    {
        SteadySource {
            bytes,
            at: 0,
            last: 0,
        }
    }
}

impl Source for SteadySource {
    ghost left = { λ stock. Some stock.left };

    ghost last = { λ stock. Some stock.last };

    ghost faults = { λ stock. 0 };

    fn read(&mut self, buf: &mut [u8]) -> Result<usize, Failed>
        requires { 0 < length buf.old }
        ensures bound { IfOk result (λ n. n ≤ length buf.new) }
        ensures bytes { Reads (Some self.old.left) (Some self.new.left) result buf.new }
        ensures last { TellsLast (Some self.new.last) result }
        ensures cause { CountsFault 0 0 result }
        ensures most { 0 ≤ last_count }
        ensures never_fails { IsOk result }
        ensures count { IfOk result (λ n. n ≡ min (length buf.old) (length self.old.left)) }
        ensures after { IfOk result (λ n. self.new ≡ stock_after self.old n) }
    {
        let n = buf.len().min(self.bytes.len() - self.at);
        buf[..n].copy_from_slice(&self.bytes[self.at..self.at + n]);
        self.at += n;
        self.last = n;
        Ok(n)
    }
}

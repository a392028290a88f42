//! A source over bytes in memory, of which given calls fail.
ghost use Rattle.std.specs.Prelude.{◌≡◌, ◌<◌, ◌≤◌, ◌↔◌, Some, IsErr, IsTrue, IfOk, OnErr, length};
ghost use Rattle.transyt_io.specs.Streams.{Reads, TellsLast, CountsFault, last_count};
ghost use Rattle.transyt_io.specs.Memory.{
  fails_next,
  given_count,
  new_supply,
  supply_after,
  supply_after_fault,
};

use crate::calls::fails_next;
use crate::streams::{Failed, Source};
use std::marker::Model;

/// Bytes in memory, given in pieces of a most size, where given calls fail.
///
/// Contracts see it as a `Supply`: the bytes left, the size of a piece, the numbers that fail, how many calls there
/// were and how many failed, and how many bytes the last one gave. For tests and for callers that have their input.
#[derive(Drop)]
pub struct MemorySource {
    bytes: Vec<u8>,
    at: usize,
    piece: usize,
    fail: Vec<u32>,
    calls: u64,
    faults: u64,
    last: usize,
}

impl Model for MemorySource {
    ghost use Rattle.std.specs.Prelude.{◌<◌, ◌≤◌, drop, vec_len};
    ghost use Rattle.transyt_io.specs.Memory.{Supply};

    ghost Value = { Supply };

    ghost view = { λ s. record {
      left = drop s.at s.bytes.items;
      piece = s.piece;
      fail = s.fail.items;
      calls = s.calls;
      faults = s.faults;
      last = s.last;
    } };

    ghost invariant = { λ s. (s.at ≤ vec_len s.bytes) × (0 < s.piece) };
}

impl MemorySource {
    /// A source of `bytes`, at most `piece` of them a call. Calls are numbered from 1; exactly those whose numbers
    /// stand in `fail`, in any order, fail. A call that fails counts.
    pub fn new(bytes: Vec<u8>, piece: usize, fail: Vec<u32>) -> MemorySource
        requires { 0 < piece }
        ensures { result ≡ new_supply bytes.items piece fail.items }
    {
        MemorySource {
            bytes,
            at: 0,
            piece,
            fail,
            calls: 0,
            faults: 0,
            last: 0,
        }
    }
}

impl Source for MemorySource {
    ghost left = { λ supply. Some supply.left };

    ghost last = { λ supply. Some supply.last };

    ghost faults = { λ supply. supply.faults };

    fn read(&mut self, buf: &mut [u8]) -> Result<usize, Failed>
        requires { 0 < length buf.old }
        ensures bound { IfOk result (λ n. n ≤ length buf.new) }
        ensures bytes { Reads (Some self.old.left) (Some self.new.left) result buf.new }
        ensures last { TellsLast (Some self.new.last) result }
        ensures cause { CountsFault self.old.faults self.new.faults result }
        ensures most { self.new.faults ≤ last_count }
        ensures fails { IsErr result ↔ IsTrue (fails_next self.old.fail self.old.calls) }
        ensures count { IfOk result (λ n. n ≡ given_count self.old (length buf.old)) }
        ensures after { IfOk result (λ n. self.new ≡ supply_after self.old n) }
        ensures failed { OnErr result (self.new ≡ supply_after_fault self.old) }
    {
        let failing = fails_next(&self.fail, self.calls);
        self.calls = self.calls.saturating_add(1);
        if failing {
            self.faults = self.faults.saturating_add(1);
            self.last = 0;
            return Err(Failed);
        }
        let left = self.bytes.len() - self.at;
        let n = self.piece.min(buf.len()).min(left);
        buf[..n].copy_from_slice(&self.bytes[self.at..self.at + n]);
        self.at += n;
        self.last = n;
        Ok(n)
    }
}

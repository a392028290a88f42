//! A sink into memory, of which given calls fail.
ghost use Rattle.std.specs.Prelude.{◌≡◌, ◌<◌, ◌≤◌, ◌↔◌, Some, IsErr, IsTrue, IfOk, OnErr, length, take};
ghost use Rattle.transyt_io.specs.Streams.{Writes, CountsFault, last_count};
ghost use Rattle.transyt_io.specs.Memory.{
  new_store,
  refuses_next,
  store_after,
  store_after_fault,
  taken_count,
};

use crate::calls::fails_next;
use crate::streams::{Failed, Sink};
use std::alloc::{AllocError, Global};
use std::marker::Model;

/// Room in memory, filled in pieces of a most size, where given calls fail.
///
/// Contracts see it as a `Store`: the bytes written, the room left, the size of a piece, the numbers that fail, how
/// many calls there were and how many failed.
#[derive(Drop)]
pub struct MemorySink {
    bytes: Vec<u8>,
    room: usize,
    piece: usize,
    fail: Vec<u32>,
    calls: u64,
    faults: u64,
}

impl Model for MemorySink {
    ghost use Rattle.std.specs.Prelude.{◌<◌, ◌≤◌, ◌+◌, vec_len, vec_capacity};
    ghost use Rattle.transyt_io.specs.Memory.{Store};

    ghost Value = { Store };

    ghost view = { λ s. record {
      written = s.bytes.items;
      room = s.room;
      piece = s.piece;
      fail = s.fail.items;
      calls = s.calls;
      faults = s.faults;
    } };

    ghost invariant = { λ s. (vec_len s.bytes + s.room ≤ vec_capacity s.bytes) × (0 < s.piece) };
}

impl MemorySink {
    /// A sink for `room` bytes, for which it takes the memory here. It takes at most `piece` bytes a call. Calls are
    /// numbered from 1; exactly those whose numbers stand in `fail`, in any order, and those with no room left fail.
    /// A call that fails counts.
    pub fn new(
        alloc: Global,
        room: usize,
        piece: usize,
        fail: Vec<u32>,
    ) -> Result<MemorySink, AllocError>
        requires { 0 < piece }
        ensures { IfOk result (λ sink. sink ≡ new_store room piece fail.items) }
    {
        Ok(MemorySink {
            bytes: Vec::with_capacity(alloc, room)?,
            room,
            piece,
            fail,
            calls: 0,
            faults: 0,
        })
    }

    /// The bytes written.
    pub fn bytes(&self) -> &[u8]
        ensures { result.now ≡ self.now.written }
    {
        &self.bytes
    }
}

impl Sink for MemorySink {
    ghost written = { λ store. Some store.written };

    ghost faults = { λ store. store.faults };

    fn write(&mut self, piece: &[u8]) -> Result<usize, Failed>
        requires { 0 < length piece.now }
        ensures bound { IfOk result (λ n. (0 < n) × (n ≤ length piece.now)) }
        ensures bytes { Writes (Some self.old.written) (Some self.new.written) result piece.now }
        ensures cause { CountsFault self.old.faults self.new.faults result }
        ensures most { self.new.faults ≤ last_count }
        ensures fails { IsErr result ↔ IsTrue (refuses_next self.old) }
        ensures count { IfOk result (λ n. n ≡ taken_count self.old (length piece.now)) }
        ensures after { IfOk result (λ n. self.new ≡ store_after self.old (take n piece.now)) }
        ensures failed { OnErr result (self.new ≡ store_after_fault self.old) }
    {
        let failing = self.room == 0 || fails_next(&self.fail, self.calls);
        self.calls = self.calls.saturating_add(1);
        if failing {
            self.faults = self.faults.saturating_add(1);
            return Err(Failed);
        }
        let n = self.piece.min(piece.len()).min(self.room);
        if self.bytes.extend_from_slice(&piece[..n]).is_err() {
            unreachable!();
        }
        self.room -= n;
        Ok(n)
    }
}

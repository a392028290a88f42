//! A line that is put together before it is written.
ghost use Rattle.std.specs.Prelude.{◌≡◌, ◌<◌, ◌≤◌, ◌+◌, ◌^◌, ◌++◌, [], IfOk, OnOk, OnErr, decimal, length};
ghost use Rattle.transyt_io.specs.Streams.{Adds, AddsFront, CountsFault};

use crate::streams::{Failed, Sink};
use std::alloc::{AllocError, Global};
use std::marker::Model;
use transyt_num::put_number;

/// How many bytes a line has at most, its line end with them.
const ROOM: usize = 4096;

/// A line of at most 4,096 bytes that is put together piece by piece.
///
/// Contracts see it as the list of its bytes. Its memory is taken once, in `open`.
#[derive(Drop)]
pub struct LineBuffer {
    bytes: Vec<u8>,
}

impl Model for LineBuffer {
    ghost use Rattle.std.specs.Prelude.{ℕ, List, ◌≤◌, vec_len, vec_capacity};

    ghost Value = { List ℕ };

    ghost view = { λ line. line.bytes.items };

    ghost invariant = { λ line. (vec_len line.bytes ≤ 4096) × (4096 ≤ vec_capacity line.bytes) };
}

impl LineBuffer {
    /// A line of no bytes.
    pub fn open(alloc: Global) -> Result<LineBuffer, AllocError>
        ensures { IfOk result (λ line. line ≡ []) }
    {
        Ok(LineBuffer {
            bytes: Vec::with_capacity(alloc, ROOM)?,
        })
    }

    /// Takes all bytes off.
    pub fn clear(&mut self)
        ensures { self.new ≡ [] }
    {
        self.bytes.clear();
    }

    /// Puts `piece` at the end.
    pub fn put(&mut self, piece: &[u8])
        requires fits { length self.old + length piece.now ≤ 4096 }
        ensures { self.new ≡ self.old ++ piece.now }
    {
        if self.bytes.extend_from_slice(piece).is_err() {
            unreachable!();
        }
    }

    /// Puts the shortest decimal text of `v` at the end. It has at most 39 bytes, and that of a `u64` at most 20.
    pub fn put_value(&mut self, v: u128)
        requires fits { length self.old + 39 ≤ 4096 }
        ensures text { self.new ≡ self.old ++ decimal v }
        ensures room { length self.new ≤ length self.old + 39 }
        ensures short { v < 2 ^ 64 → length self.new ≤ length self.old + 20 }
    {
        let mut digits = [0; 39];
        let n = put_number(v, &mut digits);
        if self.bytes.extend_from_slice(&digits[..n]).is_err() {
            unreachable!();
        }
    }

    /// The bytes so far.
    pub fn bytes(&self) -> &[u8]
        ensures bytes { result.now ≡ self.now }
        ensures most { length result.now ≤ 4096 }
    {
        &self.bytes
    }
}

/// Writes the bytes of `line`. The first call of the sink gets the whole line; what a short write leaves is written
/// by further calls. On Failed some first bytes of the line were written.
pub fn write_line<K: Sink>(line: &LineBuffer, sink: &mut K) -> Result<(), Failed>
    requires { 0 < length line.now }
    ensures ok { OnOk result (Adds (K.written sink.old) (K.written sink.new) line.now) }
    ensures err { OnErr result (AddsFront (K.written sink.old) (K.written sink.new) line.now) }
    ensures cause { CountsFault (K.faults sink.old) (K.faults sink.new) result }
{
    let bytes = line.bytes();
    let mut at = 0;
    while at < bytes.len() {
        at += sink.write(&bytes[at..])?;
    }
    Ok(())
}

//! A block of an input: how much is asked for, how much is too much, and what a read gave.
ghost use Rattle.std.specs.Prelude.{◌≡◌, ◌<◌, ◌≤◌, ◌+◌, [], drop, length, IfOk, IfErr, IsErrOf};
ghost use Rattle.transyt_io.specs.Gather.{Gives, StopsAfter};
ghost use Rattle.transyt_io.specs.Streams.{IsAtEnd, Rose, Reads, TellsLast, CountsFault};

use crate::reader::ReadStop;
use crate::streams::{Failed, Source};
use std::alloc::{AllocError, Global};
use std::marker::Model;

/// The most bytes that an input may have.
pub(crate) const MOST: usize = 4_194_304;

/// How many bytes one read asks for at most.
const BLOCK: usize = 8192;

/// The bytes that the last read gave, as far as they were not skipped. Its memory is taken in `open`.
#[derive(Drop)]
pub(crate) struct Block {
    bytes: Vec<u8>,
    at: usize,
    end: usize,
}

impl Model for Block {
    ghost use Rattle.std.specs.Prelude.{ℕ, List, ◌<◌, ◌≤◌, vec_len};
    ghost use Rattle.std.specs.List.{between};

    ghost Value = { List ℕ };

    ghost view = { λ block. between block.at block.«end» block.bytes.items };

    ghost invariant = { λ block. record {
      low : block.at ≤ block.«end»;
      high : block.«end» ≤ vec_len block.bytes;
      some : 0 < vec_len block.bytes;
    } };
}

impl Block {
    /// A block of no bytes.
    pub(crate) fn open(alloc: Global) -> Result<Block, AllocError>
        ensures { IfOk result (λ block. block ≡ []) }
    {
        Ok(Block {
            bytes: vec![in alloc; 0; BLOCK]?,
            at: 0,
            end: 0,
        })
    }

    /// The bytes held.
    pub(crate) fn bytes(&self) -> &[u8]
        ensures { result.now ≡ self.now }
    {
        &self.bytes[self.at..self.end]
    }

    /// Skips the first `count` bytes.
    pub(crate) fn skip(&mut self, count: usize)
        requires { count ≤ length self.old }
        ensures { self.new ≡ drop count self.old }
    {
        self.at += count;
    }

    /// Reads the next bytes of an input of which `taken` were read before, in place of those held, and returns how
    /// many: 0 only at the end.
    pub(crate) fn read<S: Source>(
        &mut self,
        source: &mut S,
        taken: usize,
    ) -> Result<usize, ReadStop>
        requires most { taken ≤ 4194304 }
        ensures gives { Gives (S.left source.old) (S.left source.new) (S.last source.new) self.new }
        ensures count { IfOk result (λ n. n ≡ length self.new) }
        ensures most { IfOk result (λ n. taken + n ≤ 4194304) }
        ensures none { IfOk result (λ n. n ≡ 0 → IsAtEnd (S.left source.new)) }
        ensures stop { IfErr result (StopsAfter taken self.new) }
        ensures later { S.faults source.old ≤ S.faults source.new }
        ensures fault { IsErrOf result ReadStop.Fault →
            Rose (S.faults source.old) (S.faults source.new) }
    {
        self.at = 0;
        self.end = 0;
        let want = room(taken, self.bytes.len());
        let Ok(n) = read_front(source, &mut self.bytes, want) else {
            return Err(ReadStop::Fault);
        };
        self.end = n;
        if n > 0 && taken == MOST {
            return Err(ReadStop::TooLong);
        }
        Ok(n)
    }
}

/// Reads the next bytes of an input into the first `want` of `bytes`, and returns how many: 0 only at the end.
fn read_front<S: Source>(source: &mut S, bytes: &mut [u8], want: usize) -> Result<usize, Failed>
    requires some { 0 < want }
    requires within { want ≤ length bytes.old }
    ensures bound { IfOk result (λ n. n ≤ want) }
    ensures bytes { Reads (S.left source.old) (S.left source.new) result bytes.new }
    ensures last { TellsLast (S.last source.new) result }
    ensures cause { CountsFault (S.faults source.old) (S.faults source.new) result }
{
    source.read(&mut bytes[..want])
}

/// How many bytes to ask for: at most what may still come, and exactly one once all that may come was taken.
fn room(taken: usize, block: usize) -> usize
    requires some { 0 < block }
    requires most { taken ≤ 4194304 }
    ensures some { 0 < result }
    ensures within { result ≤ block }
    ensures most { taken + result ≤ 4194305 }
    ensures exact { taken < 4194304 → taken + result ≤ 4194304 }
{
    (MOST - taken).max(1).min(block)
}

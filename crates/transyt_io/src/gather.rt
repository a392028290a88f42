//! One line, gathered from pieces.
ghost use Rattle.std.specs.Prelude.{◌≡◌, ◌==◌, ◌-◌, ◌<◌, ◌≤◌, ◌++◌, [], true, false, slice_index, length, take, IfOk};
ghost use Rattle.transyt_io.specs.Lines.{line_of};
ghost use Rattle.transyt_io.specs.Gather.{EndsLine, GoesOn};

use crate::block::Block;
use memchr::memchr;
use std::alloc::{AllocError, Global};
use std::marker::Model;

/// How many bytes of a line are kept: one more than a line that is too long stands for.
const KEPT: usize = 4098;

/// The length of the line that `raw` is: without a carriage return at its end, and of at most 4,097 bytes.
pub(crate) fn line_length(raw: &[u8]) -> usize
    ensures line { take result raw.now ≡ line_of raw.now }
    ensures within { result ≤ length raw.now }
    ensures most { result ≤ 4097 }
{
    if ends_in_return(raw) {
        return (raw.len() - 1).min(KEPT - 1);
    }
    raw.len().min(KEPT - 1)
}

/// Whether the last byte is a carriage return.
fn ends_in_return(raw: &[u8]) -> bool
    ensures { result ≡ (slice_index raw.now (length raw.now - 1) == 13) }
{
    match raw.last() {
        Some(b) => *b == b'\r',
        None => false,
    }
}

/// What is kept of a line: its first 4,098 bytes, which tell what the line is, and at its end the line itself.
///
/// Its memory is taken in `open`.
#[derive(Drop)]
pub(crate) struct KeptLine {
    bytes: Vec<u8>,
}

impl Model for KeptLine {
    ghost use Rattle.std.specs.Prelude.{ℕ, List, ◌≤◌, length, vec_capacity};

    ghost Value = { List ℕ };

    ghost view = { λ line. line.bytes.items };

    ghost invariant = { λ line. record {
      room : 4098 ≤ vec_capacity line.bytes;
      kept : length line.bytes.items ≤ 4098;
    } };
}

impl KeptLine {
    /// A line of no bytes.
    pub(crate) fn open(alloc: Global) -> Result<KeptLine, AllocError>
        ensures { IfOk result (λ line. line ≡ []) }
    {
        Ok(KeptLine {
            bytes: Vec::with_capacity(alloc, KEPT)?,
        })
    }

    /// The bytes kept.
    pub(crate) fn bytes(&self) -> &[u8]
        ensures { result.now ≡ self.now }
    {
        &self.bytes
    }

    /// Begins a line.
    pub(crate) fn clear(&mut self)
        ensures { self.new ≡ [] }
    {
        self.bytes.clear();
    }

    /// Adds the bytes of `block`, up to the first line end, and returns whether there is one: then the block holds
    /// what comes after it.
    pub(crate) fn gather(&mut self, block: &mut Block) -> bool
        ensures ends { result ≡ true → EndsLine self.old self.new block.old block.new }
        ensures goes_on { result ≡ false → GoesOn self.old self.new block.old }
    {
        let piece = block.bytes();
        let Some(at) = memchr(b'\n', piece) else {
            self.keep(piece);
            return false;
        };
        self.keep(&piece[..at]);
        self.close();
        block.skip(at + 1);
        true
    }

    /// Adds `piece`.
    fn keep(&mut self, piece: &[u8])
        ensures { self.new ≡ take 4098 (self.old ++ piece.now) }
    {
        let n = piece.len().min(KEPT - self.bytes.len());
        if self.bytes.extend_from_slice(&piece[..n]).is_err() {
            unreachable!();
        }
    }

    /// Makes of what is kept the line itself.
    fn close(&mut self)
        ensures { self.new ≡ line_of self.old }
    {
        let length = line_length(&self.bytes);
        self.bytes.truncate(length);
    }

    /// Makes of what is kept at the end of a source the last line, and returns whether there is one.
    pub(crate) fn close_last(&mut self) -> bool
        ensures some { result ≡ true → 0 < length self.old }
        ensures none { result ≡ false → self.old ≡ [] }
        ensures line { self.new ≡ line_of self.old }
    {
        let some = !self.bytes.is_empty();
        self.close();
        some
    }
}

//! The bytes of an input that is taken whole.
ghost use Rattle.std.specs.Prelude.{◌≡◌, ◌≤◌, [], IfOk, IsErrOf};
ghost use Rattle.transyt_io.specs.Streams.{Rose, TakesAll};

use crate::block::{Block, MOST};
use crate::reader::ReadStop;
use crate::streams::Source;
use std::alloc::{AllocError, Global};
use std::marker::Model;

/// The bytes of an input that is taken whole, for a word that answers nothing before the input ends.
///
/// Contracts see it as the list of its bytes. All memory is taken in `open`, before the first read.
#[derive(Drop)]
pub struct Intake {
    bytes: Vec<u8>,
    block: Block,
}

impl Model for Intake {
    ghost use Rattle.std.specs.Prelude.{ℕ, List, ◌≤◌, vec_capacity};

    ghost Value = { List ℕ };

    ghost view = { λ intake. intake.bytes.items };

    ghost invariant = { λ intake. 4194304 ≤ vec_capacity intake.bytes };
}

impl Intake {
    /// An intake that has taken nothing.
    pub fn open(alloc: Global) -> Result<Intake, AllocError>
        ensures { IfOk result (λ intake. intake ≡ []) }
    {
        Ok(Intake {
            bytes: Vec::with_capacity(alloc, MOST)?,
            block: Block::open(alloc)?,
        })
    }

    /// The bytes taken.
    pub fn bytes(&self) -> &[u8]
        ensures { result.now ≡ self.now }
    {
        &self.bytes
    }

    /// Takes all bytes of a source: Ok at its end, Fault where a read failed, TooLong once a byte after the first
    /// 4,194,304 was taken.
    ///
    /// It asks for at most the bytes that are left of 4,194,304 and then for one byte, and never reads after the end.
    /// It takes no memory. After a stop the intake holds some first bytes of the source, and nothing rests on them.
    pub fn take_all<S: Source>(&mut self, source: &mut S) -> Result<(), ReadStop>
        requires empty { self.old ≡ [] }
        ensures all { TakesAll self.new (S.left source.old) (S.left source.new) result }
        ensures later { S.faults source.old ≤ S.faults source.new }
        ensures fault { IsErrOf result ReadStop.Fault →
            Rose (S.faults source.old) (S.faults source.new) }
    {
        loop {
            let n = self.block.read(source, self.bytes.len())?;
            if n == 0 {
                return Ok(());
            }
            if self.bytes.extend_from_slice(self.block.bytes()).is_err() {
                unreachable!();
            }
        }
    }
}

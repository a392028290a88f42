//! The lines of a source.
ghost use Rattle.std.specs.Prelude.{◌≡◌, ◌<◌, ◌≤◌, ◌⊎◌, true, Some, is_some, IfOk, IsSome};
ghost use Rattle.transyt_io.specs.Lines.{has_end};
ghost use Rattle.transyt_io.specs.Streams.{Rose};
ghost use Rattle.transyt_io.specs.Reading.{ReadsLine, most_lines_left, new_reading, is_text};

use crate::block::Block;
use crate::gather::KeptLine;
use crate::streams::Source;
use std::alloc::{AllocError, Global};
use std::marker::Model;

/// The answer of `LineReader::next`.
#[derive(Clone, Copy, Debug, PartialEq, Eq)]
pub enum Line {
    /// A line, which `LineReader::line` gives.
    Text,
    /// The end of the source, with no line left.
    End,
}

/// Why a call of `LineReader::next` stopped.
#[derive(Clone, Copy, Debug, PartialEq, Eq)]
pub enum ReadStop {
    /// The source failed: only where its count of faults rose in this call.
    Fault,
    /// A byte after the first 4,194,304 was taken, and all lines of these that have their line end were handed out.
    TooLong,
}

/// The lines of a source, one at a time, however the reads cut them.
///
/// Contracts see it as a `Reading`: of a live reader how many bytes were taken and those that no line handed out has;
/// and whether the source was read to its end, whether the reader is live, and the line of the last call. `HasRead`
/// ties a reader to all bytes taken and all lines handed out; `ReadsLine` says what a call of `next` did to both. Its
/// memory is taken in `open` alone: a block for what a read brings, and room for the 4,098 first bytes of a line, which
/// tell what the line is.
#[derive(Drop)]
pub struct LineReader {
    line: KeptLine,
    block: Block,
    taken: usize,
    has_line: bool,
    ended: bool,
    live: bool,
}

impl Model for LineReader {
    ghost use Rattle.std.specs.Prelude.{◌≡◌, ◌≤◌, true, Some, None, length, if◌then◌else◌};
    ghost use Rattle.transyt_io.specs.Reading.{Reading};

    ghost Value = { Reading };

    ghost view = { λ r. record {
      taken = r.taken;
      held = r.block;
      ended = r.ended;
      live = r.live;
      line = if r.has_line then Some r.line else None;
    } };

    ghost invariant = { λ r. record {
      most : r.taken ≤ 4194304;
      none : r.ended ≡ true → length r.block ≡ 0;
    } };
}

impl LineReader {
    /// A live reader that has taken nothing. All memory for reading is taken here.
    pub fn open(alloc: Global) -> Result<LineReader, AllocError>
        ensures { IfOk result (λ reader. reader ≡ new_reading) }
    {
        Ok(LineReader {
            line: KeptLine::open(alloc)?,
            block: Block::open(alloc)?,
            taken: 0,
            has_line: false,
            ended: false,
            live: true,
        })
    }

    /// Whether `next` may be called: until it returned End, Fault or TooLong.
    pub fn is_live(&self) -> bool
        ensures { result ≡ self.now.live }
    {
        self.live
    }

    /// The line that the last call of `next` handed out: without its line end and one carriage return before it, and
    /// of a line longer than 4,096 bytes the first 4,097.
    pub fn line(&self) -> &[u8]
        requires { IsSome self.now.line }
        ensures { self.now.line ≡ Some result.now }
    {
        self.line.bytes()
    }

    /// The next line of the source, which `line` then gives, or its end.
    ///
    /// It reads only where it holds no line end, asks for at most the bytes that are left of 4,194,304 and then for one
    /// byte, and never reads after the end. After End, Fault or TooLong the reader is no longer live.
    pub fn next<S: Source>(&mut self, source: &mut S) -> Result<Line, ReadStop>
        requires { self.old.live ≡ true }
        ensures reads { ReadsLine self.old self.new (S.left source.old) (S.left source.new)
            (S.last source.old) (S.last source.new) result }
        ensures live { self.new.live ≡ is_text result }
        ensures line { is_some self.new.line ≡ is_text result }
        ensures most { self.new.taken ≤ 4194304 }
        ensures less { is_text result ≡ true → most_lines_left self.new < most_lines_left self.old }
        ensures unread { (has_end self.old.held ≡ true) ⊎ (self.old.ended ≡ true) →
            source.new ≡ source.old }
        ensures later { S.faults source.old ≤ S.faults source.new }
        ensures fault { result ≡ Err ReadStop.Fault →
            Rose (S.faults source.old) (S.faults source.new) }
    {
        self.has_line = false;
        self.live = false;
        if self.ended {
            return Ok(Line::End);
        }
        self.line.clear();
        while !self.line.gather(&mut self.block) {
            let n = self.block.read(source, self.taken)?;
            if n == 0 {
                self.ended = true;
                if self.line.close_last() {
                    self.has_line = true;
                    self.live = true;
                    return Ok(Line::Text);
                }
                return Ok(Line::End);
            }
            self.taken += n;
        }
        self.has_line = true;
        self.live = true;
        Ok(Line::Text)
    }
}

//! The parts of a row.

use anyhow::{Context, Result, bail};

/// Where lines of content go.
#[derive(Clone, Copy)]
pub enum Part {
    /// No content stands here.
    Nothing,
    /// A text with a name.
    Text,
    /// Bytes of the input.
    Input,
    /// Bytes that are written.
    Output,
    /// Bytes that the source has left.
    Left,
    /// Remarks, a line each.
    Told,
}

/// Bytes that are read, or that are written.
#[derive(Drop)]
pub enum Said {
    /// The bytes are read.
    Read(Vec<u8>),
    /// The bytes are written.
    Written(Vec<u8>),
}

/// How many bytes a call of the source and one of the sink take at most.
#[derive(Clone, Copy)]
pub struct Pieces {
    pub read: usize,
    pub written: usize,
}

impl Pieces {
    /// The two numbers of a line.
    pub fn named(written: &str) -> Result<Pieces> {
        let (first, second) = written
            .split_once(' ')
            .context("`pieces` takes two numbers")?;
        Ok(Pieces {
            read: first.parse()?,
            written: second.parse()?,
        })
    }
}

/// Which calls fail.
#[derive(Clone, Copy)]
pub enum Failing {
    /// No call fails.
    Nothing,
    /// The call of the source with this number, from 1, fails.
    Read(u32),
    /// The call of the sink with this number, from 1, fails.
    Write(u32),
    /// The row is run once for each read of one byte, which fails.
    EachRead,
    /// The row is run once for each write, which fails.
    EachWrite,
}

impl Failing {
    /// The failing calls of a line.
    pub fn named(written: &str) -> Result<Failing> {
        Ok(match written.split_once(' ') {
            Some(("read", "each")) => Failing::EachRead,
            Some(("write", "each")) => Failing::EachWrite,
            Some(("read", number)) => Failing::Read(number.parse()?),
            Some(("write", number)) => Failing::Write(number.parse()?),
            _ => bail!("`fails` takes `read` or `write`, and a number or `each`"),
        })
    }
}

/// The ends that a row is run over.
#[derive(Clone, Copy)]
pub enum Ends {
    /// A source and a sink in memory.
    Memory,
    /// The same, at a gate where the first two desks wait for each other.
    Meeting,
    /// A source that never fails, and a sink that only counts.
    Tally,
    /// A slice and a vector, as a reader and a writer of std.
    Std,
}

impl Ends {
    /// The ends of a line.
    pub fn named(written: &str) -> Result<Ends> {
        Ok(match written {
            "memory" => Ends::Memory,
            "meeting" => Ends::Meeting,
            "tally" => Ends::Tally,
            "std" => Ends::Std,
            _ => bail!("`over` takes `memory`, `meeting`, `tally` or `std`"),
        })
    }
}

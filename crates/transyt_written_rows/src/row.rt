//! One row: what the program is run with, and what is wanted of it.

use crate::content::words_of;
use crate::parts::{Ends, Failing, Part, Pieces, Said};
use anyhow::{Result, bail};
use std::alloc::{AllocError, Global};

/// The room of a sink where a row names none: more than any report here.
const ROOM: usize = 1_048_576;

/// The size of pieces where a row names none: more than any line has.
const PIECE: usize = 4096;

/// One row: what the program is run with, and what is wanted of it.
#[derive(Drop)]
pub struct Row {
    /// The purpose of the row.
    pub name: String,
    /// The lists of words; the row is run with each.
    pub words: Vec<Vec<String>>,
    /// The sizes of pieces; the row is run with each.
    pub pieces: Vec<Pieces>,
    /// The calls of the source and the sink that fail.
    pub failing: Failing,
    /// The ends that the row is run over.
    pub ends: Ends,
    /// How many bytes the sink has room for.
    pub room: usize,
    /// The bytes of the input, and the bytes that are written for them, in turn.
    pub said: Vec<Said>,
    /// The bytes that the source has left, where the row names them.
    pub left: Option<Vec<u8>>,
    /// The remarks, where the row names them.
    pub told: Option<Vec<u8>>,
    /// The exit number.
    pub status: u8,
}

impl Row {
    /// A row that names nothing yet.
    pub fn new(alloc: Global, name: &str) -> Result<Row, AllocError> {
        Ok(Row {
            name: String::from_str(alloc, name)?,
            words: Vec::new(alloc),
            pieces: Vec::new(alloc),
            failing: Failing::Nothing,
            ends: Ends::Memory,
            room: ROOM,
            said: Vec::new(alloc),
            left: None,
            told: None,
            status: 0,
        })
    }

    /// Notes what a line names, and tells which part begins with it.
    pub fn note(&mut self, alloc: Global, keyword: &str, written: &str) -> Result<Part> {
        match keyword {
            "words" => self.words.push(words_of(alloc, written)?)?,
            "pieces" => self.pieces.push(Pieces::named(written)?)?,
            "fails" => self.failing = Failing::named(written)?,
            "over" => self.ends = Ends::named(written)?,
            "room" => self.room = written.parse()?,
            "status" => self.status = written.parse()?,
            "input" => return Ok(Part::Input),
            "output" => return Ok(Part::Output),
            "left" => return Ok(Part::Left),
            "told" => return Ok(Part::Told),
            _ => bail!("no line of a row begins with {keyword}"),
        }
        Ok(Part::Nothing)
    }

    /// Gives a row that names no words the word `run`, and one that names no pieces large ones.
    pub fn settle(&mut self, alloc: Global) -> Result<()> {
        if self.words.is_empty() {
            self.words.push(words_of(alloc, "run")?)?;
        }
        if self.pieces.is_empty() {
            self.pieces.push(Pieces {
                read: PIECE,
                written: PIECE,
            })?;
        }
        Ok(())
    }

    /// How many bytes the input has.
    pub fn input_len(&self) -> usize {
        let mut len = 0usize;
        for said in &self.said {
            if let Said::Read(bytes) = said {
                len = len.saturating_add(bytes.len());
            }
        }
        len
    }

    /// The bytes of the input.
    pub fn input(&self, alloc: Global) -> Result<Vec<u8>, AllocError> {
        let mut input = Vec::new(alloc);
        for said in &self.said {
            if let Said::Read(bytes) = said {
                input.extend_from_slice(bytes)?;
            }
        }
        Ok(input)
    }

    /// The text for those parts of the input that are whole in its first `count` bytes.
    pub fn output(&self, alloc: Global, count: usize) -> Result<Vec<u8>, AllocError> {
        let mut output = Vec::new(alloc);
        let mut left = count;
        for said in &self.said {
            match said {
                Said::Read(bytes) if left < bytes.len() => break,
                Said::Read(bytes) => left -= bytes.len(),
                Said::Written(bytes) => output.extend_from_slice(bytes)?,
            }
        }
        Ok(output)
    }
}

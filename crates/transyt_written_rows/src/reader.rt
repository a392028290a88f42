//! The rows of a text.

use crate::content::{put_repeated, put_written};
use crate::parts::{Part, Said};
use crate::row::Row;
use anyhow::{Context, Result};
use std::alloc::{AllocError, Global};
use std::mem;

/// A text with a name, for parts of rows to use.
#[derive(Drop)]
struct Text {
    name: String,
    bytes: Vec<u8>,
}

/// The texts and rows so far, the part in which lines of content stand, and its bytes so far.
#[derive(Drop)]
struct Reader {
    alloc: Global,
    texts: Vec<Text>,
    rows: Vec<Row>,
    part: Part,
    bytes: Vec<u8>,
}

impl Reader {
    /// A reader that has read nothing.
    fn new(alloc: Global) -> Reader {
        Reader {
            alloc,
            texts: Vec::new(alloc),
            rows: Vec::new(alloc),
            part: Part::Nothing,
            bytes: Vec::new(alloc),
        }
    }

    /// Reads a line; one that is empty or begins with `#` tells nothing.
    fn read(&mut self, line: &str) -> Result<()> {
        if line.is_empty() || line.starts_with('#') {
            return Ok(());
        }
        let (keyword, written) = line.split_once(' ').unwrap_or((line, ""));
        match keyword {
            "|" => {
                put_written(&mut self.bytes, written)?;
                self.bytes.push(b'\n')?;
                Ok(())
            }
            "+" => put_written(&mut self.bytes, written),
            "repeat" => put_repeated(&mut self.bytes, self.alloc, written),
            "@" => self.put_text(written),
            _ => self.begin(keyword, written),
        }
    }

    /// Puts a text with a name, or the lines of it from one number to another.
    fn put_text(&mut self, written: &str) -> Result<()> {
        let mut words = written.split(' ');
        let name = words.next().unwrap_or("");
        let first = number_or(words.next(), 1)?;
        let last = number_or(words.next(), usize::MAX)?;
        let text = self
            .texts
            .iter()
            .find(|text| text.name.as_str() == name)
            .context(format_args!("no text is named {name}"))?;
        let lines = text.bytes.split_inclusive(|byte| *byte == b'\n');
        for (index, line) in lines.enumerate() {
            if first <= index.saturating_add(1) && index < last {
                self.bytes.extend_from_slice(line)?;
            }
        }
        Ok(())
    }

    /// Begins a text, a row, or a part of the last row.
    fn begin(&mut self, keyword: &str, written: &str) -> Result<()> {
        self.close()?;
        self.part = match keyword {
            "text" => {
                let name = String::from_str(self.alloc, written)?;
                let bytes = Vec::new(self.alloc);
                self.texts.push(Text { name, bytes })?;
                Part::Text
            }
            "row" => {
                self.rows.push(Row::new(self.alloc, written)?)?;
                Part::Nothing
            }
            _ => {
                let row = self.rows.last_mut().context("no row has begun")?;
                row.note(self.alloc, keyword, written)?
            }
        };
        Ok(())
    }

    /// Gives the bytes of a part to its text or its row.
    fn close(&mut self) -> Result<(), AllocError> {
        let bytes = mem::replace(&mut self.bytes, Vec::new(self.alloc));
        if let (Part::Text, Some(text)) = (self.part, self.texts.last_mut()) {
            text.bytes = bytes;
        } else if let Some(row) = self.rows.last_mut() {
            match self.part {
                Part::Input => row.said.push(Said::Read(bytes))?,
                Part::Output => row.said.push(Said::Written(bytes))?,
                Part::Left => row.left = Some(bytes),
                Part::Told => row.told = Some(bytes),
                Part::Nothing | Part::Text => {}
            }
        }
        Ok(())
    }
}

/// The number of a word, or another where there is no word.
fn number_or(word: Option<&str>, other: usize) -> Result<usize> {
    match word {
        Some(word) => Ok(word.parse()?),
        None => Ok(other),
    }
}

/// Reads the lines of a text.
fn read_all(reader: &mut Reader, text: &str) -> Result<()> {
    let alloc = reader.alloc;
    for (index, line) in text.lines().enumerate() {
        let number = index.saturating_add(1);
        reader.read(line).context(format_args!("line {number}"))?;
    }
    reader.close()?;
    for row in &mut reader.rows {
        row.settle(alloc)?;
    }
    Ok(())
}

/// The rows of a text.
pub fn rows_of(alloc: Global, text: &str) -> Result<Vec<Row>> {
    let mut reader = Reader::new(alloc);
    let read = read_all(&mut reader, text);
    let rows = mem::replace(&mut reader.rows, Vec::new(alloc));
    drop(reader);
    match read {
        Ok(()) => Ok(rows),
        Err(error) => {
            drop(rows);
            Err(error)
        }
    }
}

//! Bytes as they are written in rows: a byte that is no plain text stands as `\x` and two hexadecimal digits.

use anyhow::{Context, Result};
use std::alloc::Global;

/// Puts the bytes of a written text at the end.
pub(crate) fn put_written(bytes: &mut Vec<u8>, text: &str) -> Result<()> {
    let mut pieces = text.split("\\x");
    bytes.extend_from_slice(pieces.next().unwrap_or("").as_bytes())?;
    for piece in pieces {
        let digits = piece.get(..2).context("`\\x` stands before two digits")?;
        bytes.push(u8::from_str_radix(digits, 16)?)?;
        bytes.extend_from_slice(piece.get(2..).unwrap_or("").as_bytes())?;
    }
    Ok(())
}

/// Puts a written text at the end so many times.
pub(crate) fn put_repeated(bytes: &mut Vec<u8>, alloc: Global, written: &str) -> Result<()> {
    let (count, text) = written
        .split_once(' ')
        .context("`repeat` takes a count and a text")?;
    let mut piece = Vec::new(alloc);
    put_written(&mut piece, text)?;
    for _ in 0..count.parse::<u32>()? {
        bytes.extend_from_slice(&piece)?;
    }
    Ok(())
}

/// A list of words, each parted from the next by one space; `''` is a word of no letters.
pub(crate) fn words_of(alloc: Global, written: &str) -> Result<Vec<String>> {
    let mut words = Vec::new(alloc);
    if written.is_empty() {
        return Ok(words);
    }
    for word in written.split(' ') {
        let mut bytes = Vec::new(alloc);
        if word != "''" {
            put_written(&mut bytes, word)?;
        }
        words.push(String::from_utf8(bytes)?)?;
    }
    Ok(words)
}

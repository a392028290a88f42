//! The report of the rows.

use std::{fmt, io, str};
use transyt_written_rows::Row;

/// How many rows passed and how many failed.
#[derive(Drop)]
pub(crate) struct Tally {
    passed: u32,
    failed: u32,
}

impl Tally {
    /// No rows.
    pub(crate) fn new() -> Tally {
        Tally {
            passed: 0,
            failed: 0,
        }
    }

    /// Counts a row.
    pub(crate) fn count(&mut self, has_passed: bool) {
        let counted = if has_passed {
            &mut self.passed
        } else {
            &mut self.failed
        };
        *counted = counted.saturating_add(1);
    }
}

impl fmt::Display for Tally {
    fn fmt<W: fmt::Write>(&self, f: &mut fmt::Formatter<W>) -> fmt::Result {
        let passed = self.passed;
        let failed = self.failed;
        write!(f, "{passed} passed, {failed} failed")
    }
}

/// A line as text.
fn shown<'a>(line: Option<&'a [u8]>) -> &'a str {
    match line {
        Some(bytes) => str::from_utf8(bytes).unwrap_or("(no text)"),
        None => "(nothing)",
    }
}

/// Prints the first line of what was wanted and what was got that differs.
pub(crate) fn print_difference<R: Print>(
    rt: &R,
    title: &str,
    wanted: &[u8],
    got: &[u8],
) -> io::Result<()> {
    let mut wanted_lines = wanted.split(|byte| *byte == b'\n');
    let mut got_lines = got.split(|byte| *byte == b'\n');
    for number in 1..u32::MAX {
        let wanted_line = wanted_lines.next();
        let got_line = got_lines.next();
        if wanted_line != got_line {
            println!(rt; "  {title} line {number} wanted: {}", shown(wanted_line))?;
            return println!(rt; "  {title} line {number} got:    {}", shown(got_line));
        }
        if wanted_line.is_none() {
            break;
        }
    }
    Ok(())
}

/// Prints which row failed, and with which words.
pub(crate) fn print_failed<R: Print>(rt: &R, row: &Row, words: &[String]) -> io::Result<()> {
    print!(rt; "failed: {} (", row.name)?;
    for word in words {
        print!(rt; " {word}")?;
    }
    println!(rt; " )")
}

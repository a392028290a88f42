//! Rows over the whole program: each has words, an input, how both are cut and which calls fail, and the bytes and the
//! status that are wanted. The rows are read from standard input, whose first lines say how they are written.
#![tactic(auto)]

mod hearing;
mod meeting;
mod report;
mod trial;

use crate::report::Tally;
use crate::trial::passes;
use anyhow::{Context, Result};
use std::io;
use std::thread::Threads;
use transyt_written_rows::{Row, rows_of};

/// Runs all rows, and counts those that pass.
fn tally_of<R: Threads + Sync + Print + Eprint + AllocGlobal>(
    rt: &R,
    rows: &[Row],
) -> io::Result<Tally> {
    let mut tally = Tally::new();
    for row in rows {
        tally.count(passes(rt, row)?);
    }
    Ok(tally)
}

fn main(rt: HostRuntime) -> Result<()> {
    let text = io::read_to_string(rt.alloc(), rt.stdin()).context("the rows are no text")?;
    let rows = rows_of(rt.alloc(), &text)?;
    let tally = tally_of(&rt, &rows);
    drop(rows);
    println!(rt; "{}", tally?)?;
    Ok(())
}

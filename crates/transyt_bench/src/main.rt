//! A benchmark: it builds a network at the limits, evaluates it, and prints how many cells were worked out.
//!
//! The network has 200 nodes of 8 stages and 1,000 links of 8 feeds each, 120 steps in a cycle and 8 sweeps, so an
//! evaluation is 8,000 cells. The word after the program's name is how many times it is evaluated; without one it is
//! once. Time it by `time`: the time of many evaluations less that of one, over the cells between them, is the time of
//! a cell. No crate stands on this one.
#![tactic(auto)]

ghost use Rattle.std.specs.Prelude.{◌≡◌, ◌+◌, ◌*◌, ◌<◌, ◌≤◌, length, IfOk};

mod largest;

use crate::largest::largest;
use std::alloc::{AllocError, Global};
use std::marker::Brand;
use std::sync::ledger::{Blank, Ledger};
use std::{env, io};
use transyt_net::Net;
use transyt_num::read_number;
use transyt_steps::Steps;
use transyt_sweep::full;

/// The result of evaluations: the cells worked out, and the index of the last.
#[derive(Clone, Copy)]
struct Evaluated {
    cells: u64,
    index: u128,
}

fn main(rt: HostRuntime) -> io::Result<()> {
    let times = times_of(&rt)?;
    let Ok(Some(net)) = largest(rt.alloc()) else {
        println!(rt; "no network")?;
        return Ok(());
    };
    let done = evaluations::<Brand>(rt.alloc(), &net, times, Blank::new(1))?;
    println!(rt; "CELLS {} INDEX {}", done.cells, done.index)
}

/// How many times the network is to be evaluated: the first word, and 1 where it is none or no number.
fn times_of(rt: &HostRuntime) -> io::Result<u32> {
    for word in env::args(rt)?.skip(1) {
        return Ok(read_number(word.as_bytes()).unwrap_or(1));
    }
    Ok(1)
}

/// Evaluates the network so many times, with a counter of its own.
fn evaluations<L: Ledger>(
    alloc: Global,
    net: &Net,
    times: u32,
    blank: Blank,
) -> Result<Evaluated, AllocError>
    requires name { blank.name ≡ L.name }
    requires parts { blank.parts ≡ L.parts }
    requires some { 0 < L.parts }
{
    let mut steps = Steps::<L>::begin(blank);
    evaluate(alloc, net, times, &mut steps)
}

/// Evaluates the network so many times; the cells are those that the counter counts.
fn evaluate<L: Ledger>(
    alloc: Global,
    net: &Net,
    times: u32,
    steps: &mut Steps<L>,
) -> Result<Evaluated, AllocError>
    ensures { IfOk result (λ done. steps.new ≡ steps.old + done.cells) }
{
    let each = cells_of(net);
    let mut done = Evaluated { cells: 0, index: 0 };
    for _turn in 0..times {
        let rows = full(alloc, net, steps)?;
        done.cells += each;
        done.index = rows.index();
    }
    Ok(done)
}

/// The cells of one evaluation.
fn cells_of(net: &Net) -> u64
    ensures value { result ≡ net.now.frame.sweeps * length net.now.links }
    ensures most { result ≤ 8000 }
{
    u64::from(net.frame().sweeps) * net.links().len() as u64
}

//! Other starts of a network.
ghost use Rattle.std.specs.Prelude.{◌≡◌, ◌<◌, ◌≤◌, ◌+◌, ◌*◌, length, IfOk, OnOk, [], map};
ghost use Rattle.std.specs.List.{range_with_len};
ghost use Rattle.transyt_net.specs.Edits.{set_offset};
ghost use Rattle.transyt_make.specs.Draws.{further};
ghost use Rattle.transyt_variants.specs.Starts.{drawn_nodes, start_at};
ghost use Rattle.transyt_variants.specs.Kept.{KeepsAllButOffsets};

use crate::start::Start;
use std::alloc::{AllocError, Global};
use transyt_make::Draws;
use transyt_net::{Net, Node};

/// Leaves so many draws out.
fn skip(draws: &mut Draws, count: usize)
    requires few { draws.old.taken + count < 4294967295 }
    ensures { draws.new ≡ further draws.old count }
{
    for left_out in 0..count {
        draws.draw(1);
    }
}

/// A node with this offset.
fn with_offset(alloc: Global, node: &Node, offset: u32) -> Result<Node, AllocError>
    ensures { IfOk result (λ n. n ≡ set_offset offset node.now) }
{
    Ok(Node {
        number: node.number,
        offset,
        stages: Vec::from_slice(alloc, &node.stages)?,
    })
}

/// Adds each node with the next draw as its offset.
fn add_nodes(
    alloc: Global,
    net: &Net,
    draws: &mut Draws,
    nodes: &mut Vec<Node>,
) -> Result<(), AllocError>
    requires few { draws.old.taken < 4294960000 }
    requires none { nodes.old.items ≡ [] }
    ensures { OnOk result (nodes.new.items ≡ drawn_nodes net.now draws.old.seed draws.old.taken) }
{
    for place in 0..net.nodes().len() {
        let offset = draws.draw(net.frame().step_count);
        nodes.push(with_offset(alloc, &net.nodes()[place], offset)?)?;
    }
    Ok(())
}

/// The network with draws as its offsets, one for each node.
#[tactic(auto, using(crate::proofs::StartLaws::drawn_numbers, crate::proofs::StartLaws::drawn_valid))]
fn drawn(alloc: Global, net: &Net, draws: &mut Draws) -> Result<Net, AllocError>
    requires few { draws.old.taken < 4294960000 }
    ensures { IfOk result (λ made. made
        ≡ record net.now { nodes = drawn_nodes net.now draws.old.seed draws.old.taken }) }
{
    let mut nodes = Vec::new(alloc);
    if let Err(e) = add_nodes(alloc, net, draws, &mut nodes) {
        drop(nodes);
        return Err(e);
    }
    let made = net.with_signals(alloc, net.frame(), &nodes);
    drop(nodes);
    made
}

/// The start after the one at a place.
#[tactic(auto, using(crate::proofs::StartLaws::start_after))]
fn start_after(alloc: Global, net: &Net, start: Start) -> Result<Net, AllocError>
    ensures { IfOk result (λ made. made ≡ start_at net.now start.seed (start.place + 1)) }
{
    let mut draws = Draws::new(start.seed);
    skip(&mut draws, start.place * net.nodes().len());
    drawn(alloc, net, &mut draws)
}

/// The start at a place.
#[tactic(auto, unfolding(crate::specs::Starts::start_at))]
fn start_made(alloc: Global, net: &Net, start: Start) -> Result<Net, AllocError>
    ensures { IfOk result (λ made. made ≡ start_at net.now start.seed start.place) }
{
    if start.place == 0 {
        return net.copy(alloc);
    }
    let before = Start {
        seed: start.seed,
        place: start.place - 1,
    };
    start_after(alloc, net, before)
}

/// The start of a network at a place of a list of starts: the first is an equal network, each other has offsets that
/// are drawn from the seed, one for each node in card order.
///
/// The draws are those that towns are made by, modulo the number of steps; they begin with the seed, and go on from
/// start to start. The seed is at most 999,999,999, the place at most 999. It fails only when out of memory.
pub fn start_net(alloc: Global, net: &Net, seed: u32, place: usize) -> Result<Net, AllocError>
    requires seed { seed ≤ 999999999 }
    requires place { place ≤ 999 }
    ensures value { IfOk result (λ made. made ≡ start_at net.now seed place) }
    ensures kept { IfOk result (λ made. KeepsAllButOffsets net.now made) }
{
    // That a network is valid is told by its accessors.
    let _ = net.frame();
    start_made(alloc, net, Start { seed, place })
}

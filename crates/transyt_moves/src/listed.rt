//! The list of moves, place by place.

ghost use Rattle.std.specs.Prelude.{◌≡◌, ℕ, ◌+◌, ◌-◌, ◌*◌, ◌%◌, ◌<◌, ◌≤◌, length, All, slice_index_or};
ghost use Rattle.transyt_cycle.specs.Cycle.{minus_mod};
ghost use Rattle.transyt_parts.specs.Valid.{IsNode};
ghost use Rattle.transyt_net.specs.declared.edit.Edit.{Edit};
ghost use Rattle.std.specs.List.{flat_map};
ghost use Rattle.transyt_moves.specs.Moves.{sizes_of, shifted, node_moves, size_moves, no_move, move_count, move};

use crate::nodes::{Nodes, SizeMoves};
use transyt_cycle::minus_mod;
use transyt_net::{Edit, Net, Node};

/// How many moves there are: 0 without a climb plan.
#[tactic(auto, using(crate::proofs::MoveLaws::count_is))]
pub fn move_count(net: &Net) -> u32
    ensures count { result ≡ move_count net.now }
    ensures most { result ≤ 57600 }
{
    let each = nodes_count(&nodes(net));
    sizes(net).len() as u32 * each
}

/// The move at a place of the list, as the edit that it is now.
pub fn move_at(net: &Net, place: u32) -> Edit
    requires { place < move_count net.now }
    ensures { result ≡ move net.now place }
{
    let nodes = nodes(net);
    let each = nodes_count(&nodes);
    let size = sizes(net)[(place / each) as usize];
    size_move(&SizeMoves { nodes, size }, place % each)
}

/// The nodes of a network.
fn nodes(net: &Net) -> Nodes<'_>
    ensures steps { result.step_count ≡ net.now.frame.step_count }
    ensures list { result.list.now ≡ net.now.nodes }
{
    Nodes {
        step_count: net.frame().step_count,
        list: net.nodes(),
    }
}

/// The sizes of the climb plan; none where there is none.
fn sizes(net: &Net) -> &[u32]
    ensures value { result.now ≡ sizes_of net.now.plan }
    ensures few { length result.now ≤ 16 }
    ensures small { All (λ size. size < net.now.frame.step_count) result.now }
{
    match net.plan() {
        Some(plan) => &plan.sizes,
        None => &[],
    }
}

/// How many moves of one size there are.
fn nodes_count(nodes: &Nodes<'_>) -> u32
    ensures count { (size : ℕ)
        → length (size_moves nodes.now.step_count nodes.now.list.now size) ≡ result }
    ensures most { result ≤ 3600 }
{
    let mut count = 0;
    for node in nodes.list {
        count += node_count(node);
    }
    count
}

/// How many moves of one size a node has: two for its offset, and two for each stage.
fn node_count(node: &Node) -> u32
    requires { length node.now.stages ≤ 8 }
    ensures count { (steps size : ℕ) → length (node_moves steps size node.now) ≡ result }
    ensures value { result ≡ 2 + 2 * length node.now.stages }
{
    2 + 2 * node.stages.len() as u32
}

/// The move at a place of those by one size.
fn size_move(moves: &SizeMoves<'_>, place: u32) -> Edit
    requires { place < length (size_moves moves.now.nodes.step_count moves.now.nodes.list.now
        moves.now.size) }
    ensures { result ≡ slice_index_or (size_moves moves.now.nodes.step_count
        moves.now.nodes.list.now moves.now.size) place no_move }
{
    let mut left = place;
    for node in moves.nodes.list {
        let count = node_count(node);
        if left < count {
            return node_move(moves, node, left);
        }
        left -= count;
    }
    unreachable!()
}

/// The move at a place of those of a node.
fn node_move(moves: &SizeMoves<'_>, node: &Node, place: u32) -> Edit
    requires node { IsNode moves.now.nodes.step_count node.now }
    requires place { place < 2 + 2 * length node.now.stages }
    ensures { result ≡ slice_index_or (node_moves moves.now.nodes.step_count moves.now.size
        node.now) place no_move }
{
    let back = place % 2 == 1;
    if place < 2 {
        return Edit::Offset {
            node: node.number,
            offset: shifted(moves, node.offset, back),
        };
    }
    let stage = place / 2;
    Edit::Change {
        node: node.number,
        stage,
        change: shifted(moves, node.stages[stage as usize - 1].change, back),
    }
}

/// A step moved by the size, on or back, round the cycle.
fn shifted(moves: &SizeMoves<'_>, step: u32, back: bool) -> u32
    requires { step < moves.now.nodes.step_count }
    ensures { result ≡ shifted back moves.now.nodes.step_count step moves.now.size }
{
    let step_count = moves.nodes.step_count;
    if back {
        minus_mod(
            u64::from(step_count),
            u64::from(step),
            u64::from(moves.size),
        ) as u32
    } else {
        (step + moves.size) % step_count
    }
}

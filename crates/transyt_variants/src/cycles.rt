//! Other cycle times of a network.
ghost use Rattle.std.specs.Prelude.{◌≡◌, ◌<◌, ◌≤◌, length, All, IfOk, OnOk, [], nat_lt};
ghost use Rattle.std.specs.List.{list_all};
ghost use Rattle.std.specs.Option.{option_map};
ghost use Rattle.transyt_equisat.specs.Balance.{timed};
ghost use Rattle.transyt_variants.specs.Cycles.{has_short_lags, has_short_sizes, may_have, first_barred};
ghost use Rattle.transyt_variants.specs.Cycles.{bare_net, balanced_node, balanced, at_cycle};
ghost use Rattle.transyt_variants.specs.Kept.{KeepsSecondsAt};
ghost use Rattle.transyt_variants.specs.Needs.{CanHave};

use crate::bare::{bare_net, least_length};
use crate::cycle_time::CycleTime;
use std::alloc::{AllocError, Global};
use transyt_equisat::{Share, balance};
use transyt_net::{ClimbPlan, Link, Net, Node, Stage};

/// A network at another cycle time, or the reason why there is none.
#[derive(Drop)]
pub enum AtCycle {
    /// The cycle time isn't a whole number of the network's steps, or its steps aren't 10 to 120, or a lag or a step
    /// size of the climb plan isn't shorter than it.
    NoPlan,
    /// The stages of a node take longer, with their intergreens and least greens.
    Barred {
        /// The card number of the first such node.
        node: u32,
    },
    /// The network at this cycle time.
    Plan(Net),
}

/// Whether a link's lags are shorter than so many steps.
fn has_short_lags(steps: u32, link: &Link) -> bool
    ensures { result ≡ has_short_lags steps link.now }
{
    link.start_lag < steps && link.end_lag < steps
}

/// Whether these sizes are shorter than so many steps.
fn are_short(steps: u32, sizes: &[u32]) -> bool
    ensures { result ≡ list_all (λ h. nat_lt h steps) sizes.now }
{
    sizes.iter().all(|size| *size < steps)
}

/// Whether the lags of all these links are shorter than so many steps.
fn have_short_lags(steps: u32, links: &[Link]) -> bool
    ensures { result ≡ list_all (has_short_lags steps) links.now }
{
    links.iter().all(|link| has_short_lags(steps, link))
}

/// Whether the sizes of a climb plan are shorter than so many steps, if there is one.
fn has_short_sizes(steps: u32, plan: Option<&ClimbPlan>) -> bool
    ensures { result ≡ has_short_sizes steps (option_map (λ p. p.now) plan.entry) }
{
    match plan {
        None => true,
        Some(plan) => are_short(steps, &plan.sizes),
    }
}

/// Whether the cycle of a network may have so many steps.
fn may_have(steps: u32, net: &Net) -> bool
    ensures { result ≡ may_have steps net.now }
{
    10 <= steps
        && steps <= 120
        && have_short_lags(steps, net.links())
        && has_short_sizes(steps, net.plan())
}

/// The card number of the first node of a network whose stages take more than so many steps.
fn first_barred(steps: u32, net: &Net) -> Option<u32>
    ensures { result ≡ first_barred steps net.now.nodes }
{
    for node in net.nodes() {
        if steps < least_length(&node.stages) {
            return Some(node.number);
        }
    }
    None
}

/// These stages at the changes of these shares.
fn timed(alloc: Global, stages: &[Stage], shares: &[Share]) -> Result<Vec<Stage>, AllocError>
    requires { length shares.now ≡ length stages.now }
    ensures { IfOk result (λ made. made.items ≡ timed stages.now shares.now) }
{
    let mut made = Vec::with_capacity(alloc, stages.len())?;
    for place in 0..stages.len() {
        made.push(Stage {
            change: shares[place].change,
            intergreen: stages[place].intergreen,
            least: stages[place].least,
        })?;
    }
    Ok(made)
}

/// A node with its stages at the changes of these shares.
fn timed_node(alloc: Global, node: &Node, shares: &[Share]) -> Result<Node, AllocError>
    requires { length shares.now ≡ length node.now.stages }
    ensures { IfOk result (λ made. made
        ≡ record node.now { stages = timed node.now.stages shares.now }) }
{
    Ok(Node {
        number: node.number,
        offset: node.offset,
        stages: timed(alloc, &node.stages, shares)?,
    })
}

/// The node at a place with the changes of its balance.
fn balanced_node(alloc: Global, net: &Net, place: usize) -> Result<Node, AllocError>
    requires { place < length net.now.nodes }
    ensures { IfOk result (λ made. made ≡ balanced_node net.now place) }
{
    let greens = balance(alloc, net, place)?;
    let made = timed_node(alloc, &net.nodes()[place], &greens.stages);
    drop(greens);
    made
}

/// Adds the nodes with the changes of their balances.
fn add_balanced(alloc: Global, net: &Net, nodes: &mut Vec<Node>) -> Result<(), AllocError>
    requires { nodes.old.items ≡ [] }
    ensures { OnOk result (nodes.new.items ≡ (balanced net.now).nodes) }
{
    for place in 0..net.nodes().len() {
        nodes.push(balanced_node(alloc, net, place)?)?;
    }
    Ok(())
}

/// The network with the changes of the balance of each node.
#[tactic(auto, using(crate::proofs::BalancedLaws::balanced_numbers, crate::proofs::BalancedLaws::balanced_valid))]
fn balanced(alloc: Global, net: &Net) -> Result<Net, AllocError>
    ensures { IfOk result (λ made. made ≡ balanced net.now) }
{
    let mut nodes = Vec::new(alloc);
    if let Err(e) = add_balanced(alloc, net, &mut nodes) {
        drop(nodes);
        return Err(e);
    }
    let made = net.with_signals(alloc, net.frame(), &nodes);
    drop(nodes);
    made
}

/// The network at a cycle time that can be had.
fn plan_at(alloc: Global, net: &Net, time: CycleTime) -> Result<Net, AllocError>
    requires { CanHave net.now time.seconds }
    ensures { IfOk result (λ made. made ≡ balanced (bare_net net.now time.seconds)) }
{
    let bare = bare_net(alloc, net, time)?;
    let made = balanced(alloc, &bare);
    drop(bare);
    made
}

/// A network at another cycle time, or the reason why there is none.
fn cycle_made(alloc: Global, net: &Net, time: CycleTime) -> Result<AtCycle, AllocError>
    ensures { IfOk result (λ at. at ≡ at_cycle net.now time.seconds) }
{
    if !time.is_whole(net) {
        return Ok(AtCycle::NoPlan);
    }
    if !may_have(time.steps_of(net), net) {
        return Ok(AtCycle::NoPlan);
    }
    match first_barred(time.steps_of(net), net) {
        Some(node) => Ok(AtCycle::Barred { node }),
        None => Ok(AtCycle::Plan(plan_at(alloc, net, time)?)),
    }
}

/// The network at another cycle time, in seconds, with steps as many seconds long as before: intergreens, least greens
/// and lags last as long.
///
/// There is none where the cycle time isn't a whole number of steps, or its steps aren't 10 to 120, or a lag or a step
/// size of the climb plan isn't shorter than it; or where the stages of a node don't fit into it. Else offsets and
/// first changes keep their part of the cycle, rounded down, and the stages have the lengths of equal saturation. The
/// cycle time is 30 to 240. It fails only when out of memory.
pub fn cycle_net(alloc: Global, net: &Net, cycle: u32) -> Result<AtCycle, AllocError>
    requires low { 30 ≤ cycle }
    requires high { cycle ≤ 240 }
    ensures value { IfOk result (λ at. at ≡ at_cycle net.now cycle) }
    ensures kept { IfOk result (KeepsSecondsAt net.now) }
{
    // That a network is valid is told by its accessors.
    let _ = net.frame();
    cycle_made(alloc, net, CycleTime { seconds: cycle })
}

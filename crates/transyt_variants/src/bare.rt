//! The bare network of a cycle time: each node with its bare plan.

ghost use Rattle.std.specs.Prelude.{◌≡◌, ◌<◌, ◌≤◌, length, map, All, IfOk, OnOk, []};
ghost use Rattle.transyt_variants.specs.Cycles.{least_length, scaled, scaled_stage, filled_greens, laid};
ghost use Rattle.transyt_variants.specs.Cycles.{bare_stages, bare_plan, bare_net};
ghost use Rattle.transyt_variants.specs.Needs.{AreShort, HasBarePlan, CanHave};

use crate::cycle_time::CycleTime;
use crate::fitting::Fitting;
use crate::lengths::Lengths;
use crate::node_stages::NodeStages;
use std::alloc::{AllocError, Global};
use transyt_net::{Frame, Net, Node, Stage};

/// How many steps stages take at least.
pub(crate) fn least_length(stages: &[Stage]) -> u32
    requires { AreShort stages.now }
    ensures { result ≡ least_length stages.now }
{
    let mut all = 0;
    for stage in stages {
        all += stage.intergreen + stage.least;
    }
    all
}

/// A step of the old cycle as one of the new cycle, rounded down.
fn scaled(lengths: Lengths, step: u32) -> u32
    requires { step < lengths.before }
    ensures value { result ≡ scaled lengths.before lengths.after step }
    ensures below { result < lengths.after }
{
    step * lengths.after / lengths.before
}

/// The stages of a node, with their changes in the new cycle.
fn scaled_stages(alloc: Global, here: &NodeStages<'_>) -> Result<Vec<Stage>, AllocError>
    ensures { IfOk result (λ made. made.items
        ≡ map (scaled_stage here.now.lengths.before here.now.lengths.after) here.now.stages.now) }
{
    let stages = here.stages;
    let mut made = Vec::with_capacity(alloc, stages.len())?;
    for stage in stages {
        made.push(Stage {
            change: scaled(here.lengths, stage.change),
            intergreen: stage.intergreen,
            least: stage.least,
        })?;
    }
    Ok(made)
}

/// The least greens of these stages.
fn least_greens(alloc: Global, stages: &[Stage]) -> Result<Vec<u32>, AllocError>
    ensures { IfOk result (λ greens. greens.items ≡ map (λ s. s.least) stages.now) }
{
    stages.iter().map(|s| s.least).collect(alloc)
}

/// The least greens of a node's stages, with what is left of the new cycle added to the first.
fn filled_greens(alloc: Global, here: &NodeStages<'_>) -> Result<Vec<u32>, AllocError>
    ensures value { IfOk result (λ greens. greens.items
        ≡ filled_greens here.now.lengths.after here.now.stages.now) }
    ensures small { IfOk result (λ greens. All (λ e. e ≤ 240) greens.items) }
{
    let left = here.lengths.after - least_length(here.stages);
    let mut greens = least_greens(alloc, here.stages)?;
    greens[0] += left;
    Ok(greens)
}

/// Stages one after another, each as long as its intergreen and its green.
fn laid(alloc: Global, fitting: &Fitting<'_>) -> Result<Vec<Stage>, AllocError>
    ensures { IfOk result (λ made. made.items
        ≡ laid fitting.now.steps fitting.now.stages.now fitting.now.greens.now) }
{
    let stages = fitting.stages;
    let mut made = Vec::with_capacity(alloc, stages.len())?;
    let mut change = stages[0].change;
    for place in 0..stages.len() {
        let stage = stages[place];
        made.push(Stage { change, ..stage })?;
        change = (change + fitting.greens[place] + stage.intergreen) % fitting.steps;
    }
    Ok(made)
}

/// The bare plan of a node's stages in the new cycle.
fn bare_stages(alloc: Global, here: &NodeStages<'_>) -> Result<Vec<Stage>, AllocError>
    ensures { IfOk result (λ made. made.items
        ≡ bare_stages here.now.lengths.before here.now.lengths.after here.now.stages.now) }
{
    let greens = filled_greens(alloc, here)?;
    let scaled = scaled_stages(alloc, here)?;
    let fitting = Fitting {
        steps: here.lengths.after,
        stages: &scaled,
        greens: &greens,
    };
    laid(alloc, &fitting)
}

/// A node with its bare plan in the new cycle.
fn bare_node(alloc: Global, lengths: Lengths, node: &Node) -> Result<Node, AllocError>
    requires { HasBarePlan lengths.before lengths.after node.now }
    ensures { IfOk result (λ made. made ≡ bare_plan lengths.before lengths.after node.now) }
{
    let here = NodeStages {
        lengths,
        stages: &node.stages,
    };
    Ok(Node {
        number: node.number,
        offset: scaled(lengths, node.offset),
        stages: bare_stages(alloc, &here)?,
    })
}

/// Adds the nodes with their bare plans.
fn add_bare(
    alloc: Global,
    lengths: Lengths,
    from: &[Node],
    nodes: &mut Vec<Node>,
) -> Result<(), AllocError>
    requires from { All (HasBarePlan lengths.before lengths.after) from.now }
    requires none { nodes.old.items ≡ [] }
    ensures { OnOk result (nodes.new.items
        ≡ map (bare_plan lengths.before lengths.after) from.now) }
{
    for node in from {
        nodes.push(bare_node(alloc, lengths, node)?)?;
    }
    Ok(())
}

/// The bare network of a cycle time.
pub(crate) fn bare_net(alloc: Global, net: &Net, time: CycleTime) -> Result<Net, AllocError>
    requires { CanHave net.now time.seconds }
    ensures { IfOk result (λ made. made ≡ bare_net net.now time.seconds) }
{
    let lengths = Lengths {
        before: net.frame().step_count,
        after: time.steps_of(net),
    };
    let mut nodes = Vec::new(alloc);
    if let Err(e) = add_bare(alloc, lengths, net.nodes(), &mut nodes) {
        drop(nodes);
        return Err(e);
    }
    let frame = Frame {
        cycle: time.seconds,
        step_count: lengths.after,
        ..net.frame()
    };
    let made = net.with_signals(alloc, frame, &nodes);
    drop(nodes);
    made
}

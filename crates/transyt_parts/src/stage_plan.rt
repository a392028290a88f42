//! The stage plan of a node: the order of its stages and their greens.

ghost use Rattle.std.specs.Prelude.{◌≡◌, ℕ, ◌+◌, ◌-◌, ◌<◌, ◌≤◌, length, All};
ghost use Rattle.transyt_cycle.specs.Cycle.{minus_mod};
ghost use Rattle.transyt_parts.specs.Plan.{place_after, stage_of, length_at, in_order, have_greens, plan_fault, first_fault};

use crate::node::{Node, Stage};
use transyt_cycle::minus_mod;

/// Why a node's plan isn't allowed, in the order in which the faults are asked for.
#[derive(Clone, Copy, PartialEq, Eq)]
pub enum PlanFault {
    /// The node has fewer than two stages (22).
    FewStages,
    /// The stages' lengths don't add up to the cycle (18).
    StageOrder,
    /// A stage is shorter than its intergreen and least green (19).
    LeastGreen,
}

/// The place of the stage after a stage.
fn place_after(count: usize, place: usize) -> usize
    requires { place < count }
    ensures value { result ≡ place_after count place }
    ensures below { result < count }
{
    if place + 1 == count { 0 } else { place + 1 }
}

/// The step at which the stage at a place begins.
fn change_at(stages: &[Stage], place: usize) -> u32
    requires { place < length stages.now }
    ensures { result ≡ (stage_of stages.now place).change }
{
    stages[place].change
}

/// The steps that the stage at a place needs at least.
fn need_at(stages: &[Stage], place: usize) -> u64
    requires { place < length stages.now }
    ensures { result ≡ (stage_of stages.now place).intergreen + (stage_of stages.now place).least }
{
    stages[place].intergreen as u64 + stages[place].least as u64
}

/// The length of the stage at a place, in steps.
fn length_at(steps: u32, stages: &[Stage], place: usize) -> u32
    requires place { place < length stages.now }
    requires steps { 0 < steps }
    ensures value { result ≡ length_at steps stages.now place }
    ensures below { result < steps }
{
    let next = place_after(stages.len(), place);
    let to = u64::from(change_at(stages, next));
    minus_mod(u64::from(steps), to, u64::from(change_at(stages, place))) as u32
}

/// The length of a stage in steps: from its change to that of the stage after it, round the cycle.
///
/// `stage` is numbered from 1, and the first stage comes after the last. Two changes at one step
/// are 0 steps apart.
pub fn stage_length(node: &Node, step_count: u32, stage: u32) -> u32
    requires first { 1 ≤ stage }
    requires last { stage ≤ length node.now.stages }
    requires steps { 0 < step_count }
    ensures value { result ≡ length_at step_count node.now.stages (stage - 1) }
    ensures below { result < step_count }
{
    length_at(step_count, &node.stages, stage as usize - 1)
}

/// Whether the stages come one after another within one cycle of `steps` steps.
///
/// They do where their lengths, each round the cycle, add up to it. This project's own.
pub fn in_order(steps: u32, stages: &[Stage]) -> bool
    requires steps { 0 < steps }
    requires few { length stages.now ≤ 8 }
    ensures { result ≡ in_order steps stages.now }
{
    let mut all = 0;
    for place in 0..stages.len() {
        all += length_at(steps, stages, place) as u64;
    }
    all == steps as u64
}

/// Whether each stage is at least as long as its intergreen and least green, in a cycle of `steps`
/// steps.
#[tactic(auto, using(crate::proofs::BelowLaws::all_places_more))]
pub fn have_greens(steps: u32, stages: &[Stage]) -> bool
    requires { 0 < steps }
    ensures { result ≡ have_greens steps stages.now }
{
    for place in 0..stages.len() {
        if need_at(stages, place) > length_at(steps, stages, place) as u64 {
            return false;
        }
    }
    true
}

/// The first fault of the plan of these stages, in the order of `PlanFault`, in a cycle of `steps`
/// steps.
pub fn plan_fault(steps: u32, stages: &[Stage]) -> Option<PlanFault>
    requires steps { 0 < steps }
    requires few { length stages.now ≤ 8 }
    ensures { result ≡ plan_fault steps stages.now }
{
    if stages.len() < 2 {
        return Some(PlanFault::FewStages);
    }
    if !in_order(steps, stages) {
        return Some(PlanFault::StageOrder);
    }
    if !have_greens(steps, stages) {
        return Some(PlanFault::LeastGreen);
    }
    None
}

/// The fault of the first node that has one, in the order of the list, in a cycle of `steps` steps.
pub fn first_fault(steps: u32, nodes: &[Node]) -> Option<PlanFault>
    requires steps { 0 < steps }
    requires few { All (λ n. length n.stages ≤ 8) nodes.now }
    ensures { result ≡ first_fault steps nodes.now }
{
    match nodes {
        [] => None,
        [first, rest @ ..] => match plan_fault(steps, &first.stages) {
            Some(fault) => Some(fault),
            None => first_fault(steps, rest),
        },
    }
}

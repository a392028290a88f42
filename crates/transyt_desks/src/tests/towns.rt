//! The small networks.

ghost use Rattle.std.specs.Prelude.{◌≡◌, ◌<◌, ◌≤◌, length, None, IfOk};

use std::alloc::Global;
use std::test::Fail;
use transyt_net::{Draft, DraftFault, Frame, Net, NewLink, Weights};

const FRAME: Frame = Frame {
    cycle: 60,
    step_count: 10,
    sweeps: 2,
    period: 60,
    stop_penalty: 100,
    dispersion: 35,
};

const FIRST: NewLink = NewLink {
    number: 1,
    node: 1,
    entry: 360,
    saturation: 1800,
    weights: Weights { delay: 1, stop: 1 },
    start_lag: 0,
    end_lag: 0,
};

const SECOND: NewLink = NewLink {
    number: 2,
    node: 2,
    entry: 0,
    ..FIRST
};

/// A climb plan: its budget and its sizes, one to sixteen.
#[derive(Clone, Copy)]
pub(super) struct Plan {
    pub(super) budget: u32,
    pub(super) sizes: &'static [u32],
}

/// The network of a draft, if no node's plan has a fault.
fn closed(draft: Draft) -> Result<Net, Fail> {
    if draft.judge().is_some() {
        return Err(Fail::from("a plan has a fault"));
    }
    Ok(draft.close())
}

/// Sets a climb plan; Range where its sizes are too few or too many.
fn set_plan(draft: &mut Draft, plan: Plan) -> Result<(), DraftFault>
    requires { draft.old.plan ≡ None }
{
    if plan.sizes.is_empty() || plan.sizes.len() > 16 {
        return Err(DraftFault::Range);
    }
    draft.plan(plan.budget, plan.sizes)
}

/// Adds a node with two stages of five steps each.
fn add_node(draft: &mut Draft, number: u32, offset: u32) -> Result<(), DraftFault>
    ensures { draft.new.plan ≡ draft.old.plan }
{
    draft.node(number, offset)?;
    draft.stage(0, 1, 2)?;
    draft.stage(5, 1, 2)
}

/// Adds the first junction with one link.
fn add_first(draft: &mut Draft) -> Result<(), DraftFault>
    ensures { draft.new.plan ≡ draft.old.plan }
{
    add_node(draft, 1, 0)?;
    draft.link(FIRST, &[1])
}

/// Adds a second junction with one link, which the first link feeds.
fn add_second(draft: &mut Draft) -> Result<(), DraftFault>
    ensures { draft.new.plan ≡ draft.old.plan }
{
    add_node(draft, 2, 3)?;
    draft.link(SECOND, &[1])?;
    draft.feed(2, 1, 360, 15)
}

/// Adds one junction or both, and a climb plan.
fn add_all(draft: &mut Draft, junctions: u32, plan: Plan) -> Result<(), DraftFault>
    requires { draft.old.plan ≡ None }
{
    add_first(draft)?;
    if junctions == 1 {
        return set_plan(draft, plan);
    }
    add_second(draft)?;
    set_plan(draft, plan)
}

/// The draft of one junction or two.
fn town_draft(alloc: Global, junctions: u32, plan: Plan) -> Result<Draft, DraftFault> {
    let mut draft = Draft::new(alloc, FRAME)?;
    add_all(&mut draft, junctions, plan)?;
    Ok(draft)
}

/// One junction with one link, or two of which the first feeds the second.
pub(super) fn town(alloc: Global, junctions: u32, plan: Plan) -> Result<Net, Fail> {
    closed(town_draft(alloc, junctions, plan)?)
}

//! The refusal of an edit: its code, and what was found.
ghost use Rattle.std.specs.Prelude.{◌≡◌, ◌≤◌, ◌↔◌, IsOk, IsTrue};
ghost use Rattle.transyt_line_answers.specs.Refusals.{edit_code, edit_in_range};

use transyt_deck::check_plan;
use transyt_net::{Edit, EditFault, Net, Stage};
use transyt_syntax::{Code, Found, NumberRange, Refusal};

/// The refusal of an edit with this fault on a network, which is explained by both.
pub(crate) fn refused_edit(net: &Net, edit: Edit, fault: EditFault) -> Refusal
    ensures { result ≡ edit_code fault }
{
    let found = match fault {
        EditFault::Unknown => unknown(net, edit),
        EditFault::NoFeeder => not_fed(edit),
        EditFault::Range => Found::by(edit_in_range(net.frame().step_count.max(1), edit)),
        EditFault::StageOrder | EditFault::LeastGreen => changed_plan(net, edit),
    };
    Refusal::new(edit_code(fault), found)
}

/// The code of an edit's fault.
fn edit_code(fault: EditFault) -> Code
    ensures { result ≡ edit_code fault }
{
    match fault {
        EditFault::Unknown => Code::Unknown,
        EditFault::NoFeeder => Code::NoFeeder,
        EditFault::Range => Code::Range,
        EditFault::StageOrder => Code::StageOrder,
        EditFault::LeastGreen => Code::LeastGreen,
    }
}

/// Looks whether the numbers that an edit sets are in their ranges, in a cycle of this many steps; the first that isn't
/// is what was found.
fn edit_in_range(step_count: u32, edit: Edit) -> Result<(), Found>
    requires { 1 ≤ step_count }
    ensures { IsOk result ↔ IsTrue (edit_in_range step_count edit) }
{
    match edit {
        Edit::Offset { offset, .. } => NumberRange::new("offset", 0, step_count - 1).check(offset),
        Edit::Change { change, .. } => NumberRange::new("change", 0, step_count - 1).check(change),
        Edit::Entry { flow, .. } => NumberRange::new("entry flow", 0, 9999).check(flow),
        Edit::Part { flow, .. } => NumberRange::new("feed flow", 0, 9999).check(flow),
        Edit::Cruise { seconds, .. } => NumberRange::new("cruise time", 1, 300).check(seconds),
        Edit::Saturation { flow, .. } => {
            NumberRange::new("saturation flow", 100, 9999).check(flow)
        }
        Edit::Weight { weights, .. } => {
            NumberRange::new("delay weight", 0, 999).check(weights.delay)?;
            NumberRange::new("stop weight", 0, 999).check(weights.stop)
        }
    }
}

/// The node, stage or link that an edit names and that isn't there.
fn unknown(net: &Net, edit: Edit) -> Found {
    match edit {
        Edit::Offset { node, .. } => Found::NoNode(node),
        Edit::Change { node, stage, .. } => {
            if net.node_place(node).is_some() {
                Found::NoStage { node, stage }
            } else {
                Found::NoNode(node)
            }
        }
        Edit::Entry { link, .. } => Found::NoLink(link),
        Edit::Part { link, feeder, .. } => missing_link(net, link, feeder),
        Edit::Cruise { link, feeder, .. } => missing_link(net, link, feeder),
        Edit::Saturation { link, .. } => Found::NoLink(link),
        Edit::Weight { link, .. } => Found::NoLink(link),
    }
}

/// The first of two numbers of links that is none.
fn missing_link(net: &Net, first: u32, second: u32) -> Found {
    if net.link_place(first).is_some() {
        Found::NoLink(second)
    } else {
        Found::NoLink(first)
    }
}

/// The link and the other one by which it isn't fed.
fn not_fed(edit: Edit) -> Found {
    match edit {
        Edit::Part { link, feeder, .. } => Found::NotFed { link, feeder },
        Edit::Cruise { link, feeder, .. } => Found::NotFed { link, feeder },
        _ => Found::Nothing,
    }
}

/// What is wrong with the stages of a node after a change.
fn changed_plan(net: &Net, edit: Edit) -> Found {
    let Edit::Change {
        node,
        stage,
        change,
    } = edit
    else {
        return Found::Nothing;
    };
    let Some(place) = net.node_place(node) else {
        return Found::Nothing;
    };
    let known = &net.nodes()[place];
    let count = known.stages.len().min(8);
    let mut stages = [Stage {
        change: 0,
        intergreen: 0,
        least: 0,
    }; 8];
    stages[..count].copy_from_slice(&known.stages[..count]);
    if let Some(changed) = stages.get_mut(stage.saturating_sub(1) as usize) {
        changed.change = change;
    }
    Found::by(check_plan(node, &stages[..count], net.frame().step_count))
}

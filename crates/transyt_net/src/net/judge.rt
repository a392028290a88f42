//! The first fault of an edit.

ghost use Rattle.std.specs.Prelude.{◌≡◌, ℕ, ◌-◌, ◌<◌, ◌≤◌, ◌&&◌, length, true, take};
ghost use Rattle.transyt_parts.specs.Valid.{is_fed};
ghost use Rattle.transyt_net.specs.Valid.{on_place, feeds_at};
ghost use Rattle.transyt_net.specs.EditFaults.{range_fault, feed_fault, order_fault, change_fault, edit_fault, is_link, has_stage, changed};
ghost use Rattle.transyt_net.specs.Edits.{change_to};

use super::Net;
use crate::edit::{Edit, EditFault};
use crate::places::{is_fed, node_at, stages_at};
use transyt_parts::{Stage, are_weights, have_greens, in_order, is_cruise, is_flow, is_saturation};

/// Unknown, or else Range.
fn range_fault(known: bool, fits: bool) -> Option<EditFault>
    ensures { result ≡ range_fault known fits }
{
    if !known {
        return Some(EditFault::Unknown);
    }
    if !fits {
        return Some(EditFault::Range);
    }
    None
}

/// Unknown, or else NoFeeder, or else Range.
fn part_fault(known: bool, fed: bool, fits: bool) -> Option<EditFault>
    ensures { result ≡ feed_fault known fed fits }
{
    if !known {
        return Some(EditFault::Unknown);
    }
    if !fed {
        return Some(EditFault::NoFeeder);
    }
    if !fits {
        return Some(EditFault::Range);
    }
    None
}

/// These stages, with a change set.
#[tactic(auto, using(crate::proofs::EditLaws::changed_front))]
fn change_set(stages: &[Stage], place: usize, change: u32) -> [Stage; 8]
    requires place { place < length stages.now }
    requires few { length stages.now ≤ 8 }
    ensures { take (length stages.now) result ≡ on_place (change_to change) stages.now place }
{
    let mut after = [Stage {
        change: 0,
        intergreen: 0,
        least: 0,
    }; 8];
    after[..stages.len()].copy_from_slice(stages);
    after[place].change = change;
    after
}

/// The first fault of these stages, with a change set.
fn order_fault(steps: u32, stages: &[Stage], place: usize, change: u32) -> Option<EditFault>
    requires steps { 0 < steps }
    requires place { place < length stages.now }
    requires few { length stages.now ≤ 8 }
    ensures { result ≡ order_fault steps (on_place (change_to change) stages.now place) }
{
    let after = change_set(stages, place, change);
    let after = &after[..stages.len()];
    if !in_order(steps, after) {
        return Some(EditFault::StageOrder);
    }
    if !have_greens(steps, after) {
        return Some(EditFault::LeastGreen);
    }
    None
}

impl Net {
    /// The first fault of an edit, in the order of `EditFault`; none exactly where it's allowed.
    pub fn judge(&self, e: &Edit) -> Option<EditFault>
        ensures { result ≡ edit_fault self.now e.now }
    {
        let steps = self.frame.step_count;
        match *e {
            Edit::Offset { node, offset } => {
                range_fault(self.node_places.contains(node), offset < steps)
            }
            Edit::Change {
                node,
                stage,
                change,
            } => self.change_fault(node, stage, change),
            Edit::Entry { link, flow } => range_fault(self.is_link(link), is_flow(flow)),
            Edit::Part { link, feeder, flow } => self.feed_fault(link, feeder, is_flow(flow)),
            Edit::Cruise {
                link,
                feeder,
                seconds,
            } => self.feed_fault(link, feeder, is_cruise(seconds)),
            Edit::Saturation { link, flow } => {
                range_fault(self.is_link(link), is_saturation(flow))
            }
            Edit::Weight { link, weights } => {
                range_fault(self.is_link(link), are_weights(weights))
            }
        }
    }

    /// The first fault of an edit of a feed, whose new number is in its range or not.
    fn feed_fault(&self, link: u32, feeder: u32, fits: bool) -> Option<EditFault>
        ensures { result ≡ feed_fault (is_link self.now link && is_link self.now feeder)
            (is_fed (feeds_at self.now.links link) feeder) fits }
    {
        part_fault(
            self.is_link(link) && self.is_link(feeder),
            is_fed(&self.link_places, &self.links, link, feeder),
            fits,
        )
    }

    /// The first fault of a change.
    fn change_fault(&self, node: u32, stage: u32, change: u32) -> Option<EditFault>
        ensures { result ≡ change_fault self.now node stage change }
    {
        if !self.has_stage(node, stage) {
            return Some(EditFault::Unknown);
        }
        if change >= self.frame.step_count {
            return Some(EditFault::Range);
        }
        self.changed_fault(node, stage, change)
    }

    /// The fault of the plan of a node with a change set, where it has the stage.
    fn changed_fault(&self, node: u32, stage: u32, change: u32) -> Option<EditFault>
        requires { has_stage self.now node stage ≡ true }
        ensures { result ≡ order_fault self.now.frame.step_count
            (changed self.now node stage change) }
    {
        let Some(owner) = node_at(&self.node_places, &self.nodes, node) else {
            unreachable!();
        };
        order_fault(
            self.frame.step_count,
            &owner.stages,
            stage as usize - 1,
            change,
        )
    }

    /// Whether there is this node, and it has this stage.
    fn has_stage(&self, node: u32, stage: u32) -> bool
        ensures { result ≡ has_stage self.now node stage }
    {
        let count = stages_at(&self.node_places, &self.nodes, node);
        self.node_places.contains(node) && 1 <= stage && stage as usize <= count
    }

    /// Whether this is the number of a link.
    fn is_link(&self, link: u32) -> bool
        ensures { result ≡ is_link self.now link }
    {
        self.link_places.contains(link)
    }
}

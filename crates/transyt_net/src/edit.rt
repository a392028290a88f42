//! Edits of the numbers of a network.

ghost use Rattle.std.specs.Prelude.{◌≡◌, ℕ, ◌+◌, ◌-◌, ◌<◌, ◌≤◌, length, true};
ghost use Rattle.transyt_parts.specs.Valid.{is_fed};
ghost use Rattle.transyt_net.specs.There.{IsPlace, NodeTakes, LinkTakes};
ghost use Rattle.transyt_parts.specs.Plan.{stage_of};
ghost use Rattle.transyt_net.specs.Edits.{feeder_of, node_edit, link_edit, node_back, link_back, set_offset};
ghost use Rattle.transyt_net.specs.Edits.{set_change, set_entry, set_saturation, set_weights, set_part, set_cruise};
ghost use Rattle.transyt_net.specs.Edits.{the_feed};

use transyt_parts::{Feed, Link, Node, Weights};

/// An edit: it sets one number, or the two weights of a link. This project's own.
///
/// All names in it are card numbers, stages are numbered from 1, flows are in vehicles per hour,
/// offsets and changes in steps.
#[derive(Clone, Copy, PartialEq, Eq)]
pub enum Edit {
    /// The offset of a node.
    Offset {
        node: u32,
        offset: u32,
    },
    /// The change of a stage of a node.
    Change {
        node: u32,
        stage: u32,
        change: u32,
    },
    /// The entry flow of a link.
    Entry {
        link: u32,
        flow: u32,
    },
    /// The flow that a link takes from a feeder.
    Part {
        link: u32,
        feeder: u32,
        flow: u32,
    },
    /// The cruise time from a feeder, in seconds.
    Cruise {
        link: u32,
        feeder: u32,
        seconds: u32,
    },
    /// The saturation flow of a link.
    Saturation {
        link: u32,
        flow: u32,
    },
    /// The weights of a link's delay and stops.
    Weight {
        link: u32,
        weights: Weights,
    },
}

/// Why an edit isn't allowed, in the order in which the faults are asked for.
#[derive(Clone, Copy, PartialEq, Eq)]
pub enum EditFault {
    /// The node, its stage or a link is unknown (17).
    Unknown,
    /// The feeder doesn't feed the link (23).
    NoFeeder,
    /// The number is out of its range (14).
    Range,
    /// With the change set, the lengths of the node's stages don't add up to the cycle (18).
    StageOrder,
    /// With the change set, a stage is shorter than its intergreen and least green (19).
    LeastGreen,
}

/// Sets the offset, and gives the one before.
fn set_offset(node: &mut Node, offset: u32) -> u32
    ensures value { node.new ≡ set_offset offset node.old }
    ensures before { result ≡ node.old.offset }
{
    let before = node.offset;
    node.offset = offset;
    before
}

/// Sets the change of a stage, and gives the one before.
fn set_change(node: &mut Node, stage: u32, change: u32) -> u32
    requires first { 1 ≤ stage }
    requires last { stage ≤ length node.old.stages }
    ensures value { node.new ≡ set_change stage change node.old }
    ensures before { result ≡ (stage_of node.old.stages (stage - 1)).change }
{
    let place = stage as usize - 1;
    let before = node.stages[place].change;
    node.stages[place].change = change;
    before
}

/// Sets the entry flow, and gives the one before.
fn set_entry(link: &mut Link, flow: u32) -> u32
    ensures value { link.new ≡ set_entry flow link.old }
    ensures before { result ≡ link.old.entry }
{
    let before = link.entry;
    link.entry = flow;
    before
}

/// Sets the saturation flow, and gives the one before.
fn set_saturation(link: &mut Link, flow: u32) -> u32
    ensures value { link.new ≡ set_saturation flow link.old }
    ensures before { result ≡ link.old.saturation }
{
    let before = link.saturation;
    link.saturation = flow;
    before
}

/// Sets the weights, and gives those before.
fn set_weights(link: &mut Link, weights: Weights) -> Weights
    ensures value { link.new ≡ set_weights weights link.old }
    ensures before { result ≡ link.old.weights }
{
    let before = link.weights;
    link.weights = weights;
    before
}

/// The place of the feed with this feeder.
fn feed_place(feeds: &[Feed], feeder: u32) -> usize
    requires { is_fed feeds.now feeder ≡ true }
    ensures { IsPlace feeder_of feeds.now feeder result }
{
    for place in 0..feeds.len() {
        if feeds[place].feeder == feeder {
            return place;
        }
    }
    unreachable!()
}

/// Sets the flow of a feed, and gives the one before.
#[tactic(auto, using(crate::proofs::EditLaws::feed_found))]
fn set_part(link: &mut Link, feeder: u32, flow: u32) -> u32
    requires { is_fed link.old.feeds feeder ≡ true }
    ensures value { link.new ≡ set_part feeder flow link.old }
    ensures before { result ≡ (the_feed link.old feeder).flow }
{
    let place = feed_place(&link.feeds, feeder);
    let before = link.feeds[place].flow;
    link.feeds[place].flow = flow;
    before
}

/// Sets the cruise time of a feed, and gives the one before.
#[tactic(auto, using(crate::proofs::EditLaws::feed_found))]
fn set_cruise(link: &mut Link, feeder: u32, seconds: u32) -> u32
    requires { is_fed link.old.feeds feeder ≡ true }
    ensures value { link.new ≡ set_cruise feeder seconds link.old }
    ensures before { result ≡ (the_feed link.old feeder).cruise }
{
    let place = feed_place(&link.feeds, feeder);
    let before = link.feeds[place].cruise;
    link.feeds[place].cruise = seconds;
    before
}

/// Makes an edit of a node, and gives the edit that takes it back.
pub(crate) fn edit_node(node: &mut Node, e: &Edit) -> Edit
    requires { NodeTakes e.now node.old }
    ensures value { node.new ≡ node_edit e.now node.old }
    ensures back { result ≡ node_back e.now node.old }
{
    match *e {
        Edit::Offset {
            node: number,
            offset,
        } => Edit::Offset {
            node: number,
            offset: set_offset(node, offset),
        },
        Edit::Change {
            node: number,
            stage,
            change,
        } => Edit::Change {
            node: number,
            stage,
            change: set_change(node, stage, change),
        },
        other => other,
    }
}

/// Makes an edit of a link, and gives the edit that takes it back.
pub(crate) fn edit_link(link: &mut Link, e: &Edit) -> Edit
    requires { LinkTakes e.now link.old }
    ensures value { link.new ≡ link_edit e.now link.old }
    ensures back { result ≡ link_back e.now link.old }
{
    match *e {
        Edit::Entry { link: number, flow } => Edit::Entry {
            link: number,
            flow: set_entry(link, flow),
        },
        Edit::Part {
            link: number,
            feeder,
            flow,
        } => Edit::Part {
            link: number,
            feeder,
            flow: set_part(link, feeder, flow),
        },
        Edit::Cruise {
            link: number,
            feeder,
            seconds,
        } => Edit::Cruise {
            link: number,
            feeder,
            seconds: set_cruise(link, feeder, seconds),
        },
        Edit::Saturation { link: number, flow } => Edit::Saturation {
            link: number,
            flow: set_saturation(link, flow),
        },
        Edit::Weight {
            link: number,
            weights,
        } => Edit::Weight {
            link: number,
            weights: set_weights(link, weights),
        },
        other => other,
    }
}

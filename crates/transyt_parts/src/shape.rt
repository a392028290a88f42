//! The shape of the parts, which no edit changes, and how parts take the numbers of others of their shape.
//!
//! An edit sets an offset, a change, a flow, a cruise time or a weight; all else is the shape. This
//! project's own.

ghost use Rattle.std.specs.Prelude.{◌≡◌, ◌↔◌, ℕ, IsTrue, map};
ghost use Rattle.transyt_parts.specs.Made.{bare_stage, bare_node, bare_feed, bare_link};

use crate::climb_plan::ClimbPlan;
use crate::frame::Frame;
use crate::link::{Feed, Link};
use crate::node::{Node, Stage};

/// Whether two frames are equal.
pub fn same_frame(a: Frame, b: Frame) -> bool
    ensures { IsTrue result ↔ a ≡ b }
{
    a == b
}

/// The stage with its change put to 0.
fn bare_stage(stage: Stage) -> Stage
    ensures { result ≡ bare_stage stage }
{
    Stage { change: 0, ..stage }
}

/// The feed with its flow and cruise time put to 0.
fn bare_feed(feed: Feed) -> Feed
    ensures { result ≡ bare_feed feed }
{
    Feed {
        flow: 0,
        cruise: 0,
        ..feed
    }
}

/// Whether the stages differ at most in their changes.
fn same_stages(a: &[Stage], b: &[Stage]) -> bool
    ensures { IsTrue result ↔ map bare_stage a.now ≡ map bare_stage b.now }
{
    match (a, b) {
        ([], []) => true,
        ([x, xs @ ..], [y, ys @ ..]) => bare_stage(*x) == bare_stage(*y) && same_stages(xs, ys),
        _ => false,
    }
}

/// Whether the feeds differ at most in flows and cruise times.
fn same_feeds(a: &[Feed], b: &[Feed]) -> bool
    ensures { IsTrue result ↔ map bare_feed a.now ≡ map bare_feed b.now }
{
    match (a, b) {
        ([], []) => true,
        ([x, xs @ ..], [y, ys @ ..]) => bare_feed(*x) == bare_feed(*y) && same_feeds(xs, ys),
        _ => false,
    }
}

/// Whether two nodes differ at most in numbers that an edit sets.
fn same_node(a: &Node, b: &Node) -> bool
    ensures { IsTrue result ↔ bare_node a.now ≡ bare_node b.now }
{
    a.number == b.number && same_stages(&a.stages, &b.stages)
}

/// Whether two links differ at most in numbers that an edit sets.
fn same_link(a: &Link, b: &Link) -> bool
    ensures { IsTrue result ↔ bare_link a.now ≡ bare_link b.now }
{
    a.number == b.number
        && a.node == b.node
        && a.start_lag == b.start_lag
        && a.end_lag == b.end_lag
        && a.stages == b.stages
        && same_feeds(&a.feeds, &b.feeds)
        && a.gives_way == b.gives_way
}

/// Whether two lists of nodes differ at most in numbers that an edit sets.
pub fn same_nodes(a: &[Node], b: &[Node]) -> bool
    ensures { IsTrue result ↔ map bare_node a.now ≡ map bare_node b.now }
{
    match (a, b) {
        ([], []) => true,
        ([x, xs @ ..], [y, ys @ ..]) => same_node(x, y) && same_nodes(xs, ys),
        _ => false,
    }
}

/// Whether two lists of links differ at most in numbers that an edit sets.
pub fn same_links(a: &[Link], b: &[Link]) -> bool
    ensures { IsTrue result ↔ map bare_link a.now ≡ map bare_link b.now }
{
    match (a, b) {
        ([], []) => true,
        ([x, xs @ ..], [y, ys @ ..]) => same_link(x, y) && same_links(xs, ys),
        _ => false,
    }
}

/// Whether two climb plans are equal, or there is none on either side.
pub fn same_plan(a: &Option<ClimbPlan>, b: &Option<ClimbPlan>) -> bool
    ensures { IsTrue result ↔ a.now ≡ b.now }
{
    match (a, b) {
        (None, None) => true,
        (Some(a), Some(b)) => a.budget == b.budget && a.sizes == b.sizes,
        _ => false,
    }
}

/// Makes a node equal to one of its shape.
fn take_node(node: &mut Node, from: &Node)
    requires { bare_node node.old ≡ bare_node from.now }
    ensures { node.new ≡ from.now }
{
    node.offset = from.offset;
    node.stages.copy_from_slice(&from.stages);
}

/// Makes a link equal to one of its shape.
fn take_link(link: &mut Link, from: &Link)
    requires { bare_link link.old ≡ bare_link from.now }
    ensures { link.new ≡ from.now }
{
    link.entry = from.entry;
    link.saturation = from.saturation;
    link.weights = from.weights;
    link.feeds.copy_from_slice(&from.feeds);
}

/// Makes nodes equal to others of their shape. It takes no memory.
pub fn take_nodes(nodes: &mut [Node], from: &[Node])
    requires { map bare_node nodes.old ≡ map bare_node from.now }
    ensures { nodes.new ≡ from.now }
{
    for place in 0..from.len() {
        take_node(&mut nodes[place], &from[place]);
    }
}

/// Makes links equal to others of their shape. It takes no memory.
pub fn take_links(links: &mut [Link], from: &[Link])
    requires { map bare_link links.old ≡ map bare_link from.now }
    ensures { links.new ≡ from.now }
{
    for place in 0..from.len() {
        take_link(&mut links[place], &from[place]);
    }
}

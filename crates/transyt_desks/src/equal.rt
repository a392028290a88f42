//! Whether two networks are equal.

ghost use Rattle.std.specs.Prelude.{◌≡◌, ◌↔◌, IsTrue};

use transyt_net::{Feed, Link, Net, Node, Stage};

/// Whether all stages are equal.
fn same_stages(a: &[Stage], b: &[Stage]) -> bool
    ensures { IsTrue result ↔ a.now ≡ b.now }
{
    match (a, b) {
        ([], []) => true,
        ([x, xs @ ..], [y, ys @ ..]) => *x == *y && same_stages(xs, ys),
        _ => false,
    }
}

/// Whether two nodes are equal.
fn same_node(a: &Node, b: &Node) -> bool
    ensures { IsTrue result ↔ a.now ≡ b.now }
{
    a.number == b.number && a.offset == b.offset && same_stages(&a.stages, &b.stages)
}

/// Whether all nodes are equal.
fn same_nodes(a: &[Node], b: &[Node]) -> bool
    ensures { IsTrue result ↔ a.now ≡ b.now }
{
    match (a, b) {
        ([], []) => true,
        ([x, xs @ ..], [y, ys @ ..]) => same_node(x, y) && same_nodes(xs, ys),
        _ => false,
    }
}

/// Whether all feeds are equal.
fn same_feeds(a: &[Feed], b: &[Feed]) -> bool
    ensures { IsTrue result ↔ a.now ≡ b.now }
{
    match (a, b) {
        ([], []) => true,
        ([x, xs @ ..], [y, ys @ ..]) => *x == *y && same_feeds(xs, ys),
        _ => false,
    }
}

/// Whether two links are equal.
fn same_link(a: &Link, b: &Link) -> bool
    ensures { IsTrue result ↔ a.now ≡ b.now }
{
    a.number == b.number
        && a.node == b.node
        && a.entry == b.entry
        && a.saturation == b.saturation
        && a.weights == b.weights
        && a.start_lag == b.start_lag
        && a.end_lag == b.end_lag
        && a.stages == b.stages
        && same_feeds(&a.feeds, &b.feeds)
        && a.gives_way == b.gives_way
}

/// Whether all links are equal.
fn same_links(a: &[Link], b: &[Link]) -> bool
    ensures { IsTrue result ↔ a.now ≡ b.now }
{
    match (a, b) {
        ([], []) => true,
        ([x, xs @ ..], [y, ys @ ..]) => same_link(x, y) && same_links(xs, ys),
        _ => false,
    }
}

/// Whether two networks are equal.
pub(crate) fn same_net(a: &Net, b: &Net) -> bool
    ensures { IsTrue result ↔ a.now ≡ b.now }
{
    a.same_shape(b) && same_nodes(a.nodes(), b.nodes()) && same_links(a.links(), b.links())
}

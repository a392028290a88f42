//! Copies of the parts of a network.

ghost use Rattle.std.specs.Prelude.{◌≡◌, IfOk, OnOk, []};

use crate::climb_plan::ClimbPlan;
use crate::link::Link;
use crate::node::Node;
use std::alloc::{AllocError, Global};

/// An equal node, with memory of its own.
fn copy_node(alloc: Global, node: &Node) -> Result<Node, AllocError>
    ensures { IfOk result (λ copy. copy ≡ node.now) }
{
    let stages = Vec::from_slice(alloc, &node.stages)?;
    Ok(Node {
        number: node.number,
        offset: node.offset,
        stages,
    })
}

/// An equal link, with memory of its own.
fn copy_link(alloc: Global, link: &Link) -> Result<Link, AllocError>
    ensures { IfOk result (λ copy. copy ≡ link.now) }
{
    let stages = Vec::from_slice(alloc, &link.stages)?;
    let feeds = Vec::from_slice(alloc, &link.feeds)?;
    Ok(Link {
        number: link.number,
        node: link.node,
        entry: link.entry,
        saturation: link.saturation,
        weights: link.weights,
        start_lag: link.start_lag,
        end_lag: link.end_lag,
        stages,
        feeds,
        gives_way: link.gives_way,
    })
}

/// Adds equal nodes in the same order.
fn add_nodes(alloc: Global, nodes: &[Node], copy: &mut Vec<Node>) -> Result<(), AllocError>
    requires { copy.old.items ≡ [] }
    ensures { OnOk result (copy.new.items ≡ nodes.now) }
{
    for node in nodes {
        copy.push(copy_node(alloc, node)?)?;
    }
    Ok(())
}

/// Equal nodes in the same order, with memory of their own.
pub fn copy_nodes(alloc: Global, nodes: &[Node]) -> Result<Vec<Node>, AllocError>
    ensures { IfOk result (λ copy. copy.items ≡ nodes.now) }
{
    let mut copy = Vec::with_capacity(alloc, nodes.len())?;
    add_nodes(alloc, nodes, &mut copy)?;
    Ok(copy)
}

/// Adds equal links in the same order.
fn add_links(alloc: Global, links: &[Link], copy: &mut Vec<Link>) -> Result<(), AllocError>
    requires { copy.old.items ≡ [] }
    ensures { OnOk result (copy.new.items ≡ links.now) }
{
    for link in links {
        copy.push(copy_link(alloc, link)?)?;
    }
    Ok(())
}

/// Equal links in the same order, with memory of their own.
pub fn copy_links(alloc: Global, links: &[Link]) -> Result<Vec<Link>, AllocError>
    ensures { IfOk result (λ copy. copy.items ≡ links.now) }
{
    let mut copy = Vec::with_capacity(alloc, links.len())?;
    add_links(alloc, links, &mut copy)?;
    Ok(copy)
}

/// An equal climb plan with memory of its own, or none.
pub fn copy_plan(alloc: Global, plan: &Option<ClimbPlan>) -> Result<Option<ClimbPlan>, AllocError>
    ensures { IfOk result (λ copy. copy ≡ plan.now) }
{
    match plan {
        None => Ok(None),
        Some(plan) => Ok(Some(ClimbPlan {
            budget: plan.budget,
            sizes: Vec::from_slice(alloc, &plan.sizes)?,
        })),
    }
}

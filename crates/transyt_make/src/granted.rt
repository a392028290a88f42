//! Calls of a draft that have no fault, so that they fail only when out of memory.
ghost use Rattle.std.specs.Prelude.{◌≡◌, ◌<◌, length, None, OnOk};
ghost use Rattle.transyt_parts.specs.Made.{new_stage};
ghost use Rattle.transyt_net.specs.Faults.{node_fault, with_node, stage_fault, with_stage, link_fault, with_link};
ghost use Rattle.transyt_net.specs.Faults.{feed_fault, with_feed};
ghost use Rattle.transyt_make.specs.Made.{link_with};

use crate::approach::Approach;
use std::alloc::AllocError;
use transyt_net::{Draft, DraftFault, Feed, NewLink, Weights};

/// Adds a node.
pub(crate) fn grant_node(draft: &mut Draft, number: u32, offset: u32) -> Result<(), AllocError>
    requires { node_fault draft.old number offset ≡ None }
    ensures { OnOk result (draft.new ≡ with_node draft.old number offset) }
{
    match draft.node(number, offset) {
        Ok(()) => Ok(()),
        Err(DraftFault::Memory) => Err(AllocError),
        Err(_) => unreachable!(),
    }
}

/// Adds a stage of the last node, which begins at `change`.
pub(crate) fn grant_stage(draft: &mut Draft, change: u32) -> Result<(), AllocError>
    requires some { 0 < length draft.old.nodes }
    requires free { stage_fault draft.old (new_stage change 3 4) ≡ None }
    ensures { OnOk result (draft.new ≡ with_stage draft.old (new_stage change 3 4)) }
{
    match draft.stage(change, 3, 4) {
        Ok(()) => Ok(()),
        Err(DraftFault::Memory) => Err(AllocError),
        Err(_) => unreachable!(),
    }
}

/// Adds the link of an approach, with saturation flow 1,800, weights of 1 and no lags.
pub(crate) fn grant_link(
    draft: &mut Draft,
    approach: Approach,
    entry: u32,
) -> Result<(), AllocError>
    requires { link_fault draft.old (link_with approach.place entry) ≡ None }
    ensures { OnOk result (draft.new ≡ with_link draft.old (link_with approach.place entry)) }
{
    let link = NewLink {
        number: approach.number(),
        node: approach.node(),
        entry,
        saturation: 1800,
        weights: Weights { delay: 1, stop: 1 },
        start_lag: 0,
        end_lag: 0,
    };
    match draft.link(link, &[approach.stage()]) {
        Ok(()) => Ok(()),
        Err(DraftFault::Memory) => Err(AllocError),
        Err(_) => unreachable!(),
    }
}

/// Adds a feed of a link.
pub(crate) fn grant_feed(draft: &mut Draft, link: u32, feed: Feed) -> Result<(), AllocError>
    requires { feed_fault draft.old link feed ≡ None }
    ensures { OnOk result (draft.new ≡ with_feed draft.old link feed) }
{
    match draft.feed(link, feed.feeder, feed.flow, feed.cruise) {
        Ok(()) => Ok(()),
        Err(DraftFault::Memory) => Err(AllocError),
        Err(_) => unreachable!(),
    }
}

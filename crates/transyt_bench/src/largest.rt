//! The largest network: every count at its limit.

ghost use Rattle.std.specs.Prelude.{◌≡◌, ◌+◌, ◌*◌, ◌<◌, ◌≤◌, length};

use std::alloc::Global;
use transyt_net::{Draft, DraftFault, Frame, Net, NewLink, Weights};

/// The steps in a cycle.
const STEPS: u32 = 120;

/// The nodes.
const NODES: u32 = 200;

/// The links.
const LINKS: u32 = 1000;

/// The network, or none where a number of it is out of its range; memory may run out.
pub(crate) fn largest(alloc: Global) -> Result<Option<Net>, DraftFault> {
    let frame = Frame {
        cycle: 240,
        step_count: STEPS,
        sweeps: 8,
        period: 120,
        stop_penalty: 100,
        dispersion: 35,
    };
    let mut draft = Draft::new(alloc, frame)?;
    for node in 0..NODES {
        put_node(&mut draft, node)?;
    }
    for link in 0..LINKS {
        put_link(&mut draft, link)?;
    }
    for link in 0..LINKS {
        put_feeds(&mut draft, link)?;
    }
    if draft.judge().is_some() {
        return Ok(None);
    }
    Ok(Some(draft.close()))
}

/// Adds a node of eight stages of fifteen steps each.
fn put_node(draft: &mut Draft, node: u32) -> Result<(), DraftFault>
    requires { node < 200 }
{
    draft.node(node + 1, node * 7 % STEPS)?;
    draft.stage(0, 2, 3)?;
    draft.stage(15, 2, 3)?;
    draft.stage(30, 2, 3)?;
    draft.stage(45, 2, 3)?;
    draft.stage(60, 2, 3)?;
    draft.stage(75, 2, 3)?;
    draft.stage(90, 2, 3)?;
    draft.stage(105, 2, 3)
}

/// Adds a link that runs in three stages of its node, two of them one after the other.
fn put_link(draft: &mut Draft, link: u32) -> Result<(), DraftFault>
    requires { link < 1000 }
{
    let added = NewLink {
        number: link + 1,
        node: link % NODES + 1,
        entry: 100 + link % 90,
        saturation: 1500 + link % 500,
        weights: Weights {
            delay: 1 + link % 9,
            stop: 1 + link % 7,
        },
        start_lag: link % 3,
        end_lag: link % 4,
    };
    draft.link(added, &[1 + link % 4, 2 + link % 4, 7])
}

/// Adds the eight feeds of a link, from links before it and after it.
fn put_feeds(draft: &mut Draft, link: u32) -> Result<(), DraftFault>
    requires { link < 1000 }
{
    for feed in 0..8 {
        let feeder = (link * 7 + feed * 131 + 3) % LINKS + 1;
        draft.feed(link + 1, feeder, 20 + feed * 3, 5 + (link + feed * 11) % 90)?;
    }
    Ok(())
}

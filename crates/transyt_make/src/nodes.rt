//! The nodes.
ghost use Rattle.std.specs.Prelude.{◌≡◌, ◌+◌, OnOk};
ghost use Rattle.transyt_make.specs.Works.{node_works};

use crate::granted::{grant_node, grant_stage};
use crate::junction::Junction;
use crate::works::Works;
use std::alloc::AllocError;

/// Adds the node of a junction, with its two stages.
fn put_node(works: &mut Works, junction: Junction) -> Result<(), AllocError>
    requires { works.old ≡ node_works junction.town junction.place }
    ensures { OnOk result (works.new ≡ node_works junction.town (junction.place + 1)) }
{
    let offset = works.draws.draw(50);
    let change = 15 + works.draws.draw(21);
    grant_node(&mut works.draft, junction.place + 1, offset)?;
    grant_stage(&mut works.draft, 0)?;
    grant_stage(&mut works.draft, change)
}

/// Adds the nodes.
pub(crate) fn put_nodes(works: &mut Works) -> Result<(), AllocError>
    requires { works.old ≡ node_works works.old.town 0 }
    ensures { OnOk result (works.new ≡ node_works works.old.town works.old.town.nodes) }
{
    let town = works.town;
    for place in 0..town.nodes {
        put_node(works, Junction { town, place })?;
    }
    Ok(())
}

//! The links, without their feeds.
ghost use Rattle.std.specs.Prelude.{◌≡◌, ◌<◌, ◌≤◌, ◌+◌, ◌*◌, OnOk};
ghost use Rattle.transyt_make.specs.Draws.{further};
ghost use Rattle.transyt_make.specs.Made.{entry_from};
ghost use Rattle.transyt_make.specs.Works.{node_works, link_works};

use crate::approach::Approach;
use crate::draws::Draws;
use crate::granted::grant_link;
use crate::works::Works;
use std::alloc::AllocError;

/// The entry flow of a link, by one draw.
fn draw_entry(fed: bool, draws: &mut Draws) -> u32
    requires { draws.old.taken < 4294967295 }
    ensures value { result ≡ entry_from draws.old.seed draws.old.taken fed }
    ensures small { result ≤ 500 }
    ensures taken { draws.new ≡ further draws.old 1 }
{
    if fed {
        draws.draw(41)
    } else {
        300 + draws.draw(201)
    }
}

/// Adds the link of an approach.
fn put_link(works: &mut Works, approach: Approach) -> Result<(), AllocError>
    requires { works.old ≡ link_works approach.town approach.place }
    ensures { OnOk result (works.new ≡ link_works approach.town (approach.place + 1)) }
{
    let entry = draw_entry(approach.neighbour().is_some(), &mut works.draws);
    grant_link(&mut works.draft, approach, entry)
}

/// Adds the links.
pub(crate) fn put_links(works: &mut Works) -> Result<(), AllocError>
    requires { works.old ≡ node_works works.old.town works.old.town.nodes }
    ensures { OnOk result (works.new ≡ link_works works.old.town (4 * works.old.town.nodes)) }
{
    let town = works.town;
    for place in 0..4 * town.nodes {
        put_link(works, Approach { town, place })?;
    }
    Ok(())
}

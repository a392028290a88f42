//! The feeds of the links.
ghost use Rattle.std.specs.Prelude.{◌≡◌, ◌+◌, ◌*◌, OnOk, []};
ghost use Rattle.transyt_net.specs.Valid.{feeds_at};
ghost use Rattle.transyt_net.specs.Faults.{with_feed};
ghost use Rattle.transyt_make.specs.Works.{link_works, feed_works, IsLink};

use crate::approach::Approach;
use crate::granted::grant_feed;
use crate::three_feeds::{ThreeFeeds, draw_feeds};
use crate::works::Works;
use std::alloc::AllocError;
use transyt_net::Draft;

/// Adds three feeds to a link that has none.
fn put_three(draft: &mut Draft, link: u32, feeds: ThreeFeeds) -> Result<(), AllocError>
    requires unfed { feeds_at draft.old.links link ≡ [] }
    requires there { IsLink draft.old link }
    requires feeders { IsLink draft.old feeds.first.feeder × IsLink draft.old feeds.second.feeder
        × IsLink draft.old feeds.third.feeder }
    ensures { OnOk result (draft.new ≡ with_feed (with_feed (with_feed draft.old link feeds.first)
        link feeds.second) link feeds.third) }
{
    grant_feed(draft, link, feeds.first)?;
    grant_feed(draft, link, feeds.second)?;
    grant_feed(draft, link, feeds.third)
}

/// Adds the feeds of the link of an approach, if it has a neighbour.
fn put_feeds_of(works: &mut Works, approach: Approach) -> Result<(), AllocError>
    requires { works.old ≡ feed_works approach.town approach.place }
    ensures { OnOk result (works.new ≡ feed_works approach.town (approach.place + 1)) }
{
    match approach.neighbour() {
        None => Ok(()),
        Some(from) => {
            let feeds = draw_feeds(approach, from, &mut works.draws);
            put_three(&mut works.draft, approach.number(), feeds)
        }
    }
}

/// Adds the feeds of all links.
pub(crate) fn put_feeds(works: &mut Works) -> Result<(), AllocError>
    requires { works.old ≡ link_works works.old.town (4 * works.old.town.nodes) }
    ensures { OnOk result (works.new ≡ feed_works works.old.town (4 * works.old.town.nodes)) }
{
    let town = works.town;
    for place in 0..4 * town.nodes {
        put_feeds_of(works, Approach { town, place })?;
    }
    Ok(())
}

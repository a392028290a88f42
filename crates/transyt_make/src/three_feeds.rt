//! The three feeds of a link.
ghost use Rattle.std.specs.Prelude.{◌≡◌, ◌<◌, ◌≤◌, ◌+◌, ◌*◌, false, true, nat_eq, ◌∷◌, []};
ghost use Rattle.transyt_parts.specs.Valid.{feed_in_range};
ghost use Rattle.transyt_make.specs.Draws.{further};
ghost use Rattle.transyt_make.specs.Made.{side_at, turning, feeds_from};

use crate::approach::Approach;
use crate::draws::Draws;
use transyt_net::Feed;

/// The three feeds of a link, each in range, from three links.
#[derive(Clone, Copy)]
pub(crate) struct ThreeFeeds {
    /// The feed from the link that goes straight on.
    pub(crate) first: Feed,
    /// The feed from the first of the two links that turn.
    pub(crate) second: Feed,
    /// The feed from the second of the two.
    pub(crate) third: Feed,
    ghost first_range: { feed_in_range first ≡ true },
    ghost second_range: { feed_in_range second ≡ true },
    ghost third_range: { feed_in_range third ≡ true },
    ghost second_apart: { nat_eq second.feeder first.feeder ≡ false },
    ghost third_apart: { nat_eq third.feeder first.feeder ≡ false },
    ghost turns_apart: { nat_eq third.feeder second.feeder ≡ false },
}

/// The first of the two links of a neighbour that turn into a link on this side.
fn turning(side: u32) -> u32
    ensures value { result ≡ turning side }
    ensures most { result ≤ 3 }
    ensures apart { nat_eq result side ≡ false }
    ensures other { nat_eq (result + 1) side ≡ false }
{
    if side <= 2 { 3 } else { 1 }
}

/// Draws the three feeds of the link of an approach from a neighbour.
pub(crate) fn draw_feeds(approach: Approach, from: u32, draws: &mut Draws) -> ThreeFeeds
    requires from { from ≤ 200 }
    requires few { draws.old.taken < 4294967000 }
    ensures value { feeds_from draws.old.seed draws.old.taken (side_at approach.place) from
        ≡ result.first ∷ result.second ∷ result.third ∷ [] }
    ensures taken { draws.new ≡ further draws.old 4 }
    ensures first { result.first.feeder ≡ 10 * from + side_at approach.place }
    ensures second { result.second.feeder ≡ 10 * from + turning (side_at approach.place) }
    ensures third { result.third.feeder ≡ 10 * from + turning (side_at approach.place) + 1 }
{
    let side = approach.side();
    let cruise = 15 + draws.draw(16);
    let straight = 240 + draws.draw(41);
    let first = 60 + draws.draw(41);
    let second = 60 + draws.draw(41);
    ThreeFeeds {
        first: Feed {
            feeder: 10 * from + side,
            flow: straight,
            cruise,
        },
        second: Feed {
            feeder: 10 * from + turning(side),
            flow: first,
            cruise,
        },
        third: Feed {
            feeder: 10 * from + turning(side) + 1,
            flow: second,
            cruise,
        },
    }
}

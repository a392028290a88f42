//! Links, what feeds them and to whom they give way.

ghost use Rattle.std.specs.Prelude.{◌≡◌, ◌+◌, ◌≤◌, length, All, OnOk, OnErr};
ghost use Rattle.transyt_parts.specs.Made.{add_feed, set_rule};
ghost use Rattle.transyt_parts.specs.Parts.{total_flow};
ghost use Rattle.transyt_parts.specs.Valid.{is_fed};

use std::alloc::AllocFailed;
use std::marker::Model;

/// The part of a link's traffic that comes from another link.
#[derive(Clone, Copy, PartialEq, Eq)]
pub struct Feed {
    /// The card number of the link that the vehicles come from.
    pub feeder: u32,
    /// The flow that comes from there, in vehicles per hour, at most 9,999.
    pub flow: u32,
    /// The cruise time in seconds, 1 to 300.
    pub cruise: u32,
}

/// The rule by which a link gives way to another. This project's own.
#[derive(Clone, Copy, PartialEq, Eq)]
pub struct GiveWay {
    /// The card number of the link that goes first.
    pub other: u32,
    /// The per cent of its departures by which the link's saturation flow falls, at most 400.
    pub percent: u32,
}

/// The weights of a link's delay and stops in the performance index. LR 253.
#[derive(Clone, Copy, PartialEq, Eq)]
pub struct Weights {
    /// The weight of its delay, a whole number, at most 999.
    pub delay: u32,
    /// The weight of its stops, a whole number, at most 999.
    pub stop: u32,
}

/// The numbers of a new link: all of it but its stages, its feeds and its rule.
#[derive(Clone, Copy, PartialEq, Eq)]
pub struct NewLink {
    /// The link's card number, 1 to 99,999.
    pub number: u32,
    /// The card number of the node at its end.
    pub node: u32,
    /// The flow that enters the network here, in vehicles per hour, at most 9,999.
    pub entry: u32,
    /// The saturation flow in vehicles per hour, 100 to 9,999.
    pub saturation: u32,
    /// The weights of its delay and of its stops.
    pub weights: Weights,
    /// The steps that are lost when it is opened.
    pub start_lag: u32,
    /// The steps that are won when it is closed.
    pub end_lag: u32,
}

/// A link: one stream of traffic up to the stop line of a node.
pub struct Link {
    /// The link's card number, 1 to 99,999.
    pub number: u32,
    /// The card number of the node at its end.
    pub node: u32,
    /// The flow that enters the network here, in vehicles per hour, at most 9,999.
    pub entry: u32,
    /// The saturation flow in vehicles per hour, 100 to 9,999.
    pub saturation: u32,
    /// The weights of its delay and of its stops.
    pub weights: Weights,
    /// The steps that are lost when it is opened.
    pub start_lag: u32,
    /// The steps that are won when it is closed.
    pub end_lag: u32,
    /// The stages of its node in which it runs, each from 1; one to eight of them, and none twice.
    pub stages: Vec<u32>,
    /// Its feeds, at most 8, and no feeder twice.
    pub feeds: Vec<Feed>,
    /// To whom it gives way, if to anyone.
    pub gives_way: Option<GiveWay>,
}

impl Drop for Link {
    // Written out: a derived one is proved again in each crate that lets a value go.
    fn drop(self) {
        let Link {
            number: _,
            node: _,
            entry: _,
            saturation: _,
            weights: _,
            start_lag: _,
            end_lag: _,
            stages: _,
            feeds: _,
            gives_way: _,
        } = self;
    }
}

impl Model for Link {
    ghost use Rattle.transyt_parts.specs.Parts.{LinkValue};

    ghost Value = { LinkValue };

    ghost view = { λ l. record {
      number = l.number;
      node = l.node;
      entry = l.entry;
      saturation = l.saturation;
      weights = l.weights;
      start_lag = l.start_lag;
      end_lag = l.end_lag;
      stages = l.stages.items;
      feeds = l.feeds.items;
      gives_way = l.gives_way;
    } };
}

/// Whether one of the feeds comes from the link with this card number.
pub fn has_feeder(feeds: &[Feed], feeder: u32) -> bool
    ensures { result ≡ is_fed feeds.now feeder }
{
    feeds.iter().any(|f| feeder == f.feeder)
}

/// The total flow of a link, its entry flow and the flows of its feeds, in vehicles per hour.
pub fn all_flow(link: &Link) -> u32
    requires entry { link.now.entry ≤ 9999 }
    requires flows { All (λ f. f.flow ≤ 9999) link.now.feeds }
    requires few { length link.now.feeds ≤ 8 }
    ensures value { result ≡ total_flow link.now }
    ensures small { result ≤ 89991 }
{
    let mut all = link.entry;
    for feed in &link.feeds {
        all += feed.flow;
    }
    all
}

/// Adds a feed to a link, after those that it has. Out of memory, the link stays as it is.
pub fn add_feed(link: &mut Link, feed: Feed) -> Result<(), AllocFailed<Feed>>
    ensures ok { OnOk result (link.new ≡ add_feed feed link.old) }
    ensures err { OnErr result (link.new ≡ link.old) }
{
    link.feeds.push(feed)
}

/// Gives a link this give-way rule, in place of any that it has.
pub fn set_rule(link: &mut Link, rule: GiveWay)
    ensures { link.new ≡ set_rule rule link.old }
{
    link.gives_way = Some(rule);
}

//! The figures of a link in the units of an engineer.
ghost use Rattle.std.specs.Prelude.{◌≡◌, ◌<◌, ◌≤◌, ◌*◌, ◌^◌, length, sum};
ghost use Rattle.transyt_net.specs.Parts.{link_of};
ghost use Rattle.transyt_report.specs.Measures.{greatest, feed_flow, flow_from, flow_sent, degree_of_saturation, mean_delay};
ghost use Rattle.transyt_report.specs.Measures.{part_stopped, all_arrivals, all_go, saturation_at, waiting_at, stops_at};
ghost use Rattle.transyt_report.specs.Measures.{link_figures};

use crate::session_link::SessionLink;
use transyt_net::{Feed, Net};

/// The figures of a link in the units of an engineer. Each is rounded down.
#[derive(Clone, Copy)]
pub struct LinkFigures {
    /// The card number of the link.
    pub link: u32,
    /// Its total flow by the cards, in vehicles per hour.
    pub flow: u32,
    /// The flow of all feeds that have it as their feeder, in vehicles per hour. Where it is above the total flow, the
    /// cards send on more vehicles than arrive.
    pub sent: u64,
    /// The degree of saturation, in thousandths, at most 999,999: arrivals before the cut over GO. Above 1,000 the link
    /// is oversaturated.
    pub saturation: u32,
    /// The mean delay of a vehicle at this stop line, in tenths of a second.
    pub delay: u128,
    /// The vehicles that stop, in thousandths of those that arrive.
    pub stopped: u128,
    /// The greatest queue at the end of a step, in millionths of a vehicle.
    pub queue: u64,
}

/// The greatest of a number and these values.
pub fn greatest(least: u64, values: &[u64]) -> u64
    ensures { result ≡ greatest least values.now }
{
    let mut best = least;
    for value in values {
        best = best.max(*value);
    }
    best
}

/// The flow of a feed from the link of a card number; 0 for a feed from another link.
fn feed_flow(number: u32, feed: Feed) -> u64
    ensures value { result ≡ feed_flow number feed }
    ensures small { result < 2 ^ 32 }
{
    if number == feed.feeder {
        u64::from(feed.flow)
    } else {
        0
    }
}

/// The flow of the feeds of the link at a place from the link of a card number.
fn flow_from(net: &Net, place: usize, number: u32) -> u64
    requires { place < length net.now.links }
    ensures value { result ≡ flow_from number (link_of net.now place) }
    ensures small { result ≤ 8 * 2 ^ 32 }
{
    let feeds: &[Feed] = &net.link(place).feeds;
    let mut flow: u64 = 0;
    for feed in feeds {
        flow += feed_flow(number, *feed);
    }
    flow
}

/// The flow of all feeds from the link of a card number, in vehicles per hour.
fn flow_sent(net: &Net, number: u32) -> u64
    ensures { result ≡ flow_sent net.now.links number }
{
    let mut sent: u64 = 0;
    for place in 0..net.links().len() {
        sent += flow_from(net, place, number);
    }
    sent
}

/// The sum over a cycle.
fn total(values: &[u64]) -> u128
    requires few { length values.now ≤ 120 }
    ensures value { result ≡ sum values.now }
    ensures small { result < 2 ^ 71 }
{
    let mut all: u128 = 0;
    for value in values {
        all += u128::from(*value);
    }
    all
}

/// The degree of saturation in thousandths, by the arrivals and the GO of a cycle.
fn degree_of_saturation(arrivals: u128, go: u128) -> u32
    requires arrivals { arrivals < 2 ^ 71 }
    requires go { go < 2 ^ 71 }
    ensures { result ≡ degree_of_saturation arrivals go }
{
    if arrivals == 0 {
        return 0;
    }
    if go == 0 {
        return 999_999;
    }
    (1000 * arrivals / go).min(999_999) as u32
}

/// The mean delay of a vehicle in tenths of a second, by Little's law: the vehicles that wait over the arrivals in a
/// second.
fn mean_delay(cycle: u32, waiting: u128, arrivals: u128) -> u128
    requires { waiting < 2 ^ 65 }
    ensures { result ≡ mean_delay cycle waiting arrivals }
{
    if arrivals == 0 {
        0
    } else {
        10 * u128::from(cycle) * waiting / arrivals
    }
}

/// The vehicles that stop in thousandths of those that arrive, by the stops in a second.
fn part_stopped(cycle: u32, stops: u64, arrivals: u128) -> u128
    ensures { result ≡ part_stopped cycle stops arrivals }
{
    if arrivals == 0 {
        0
    } else {
        1000 * u128::from(cycle) * u128::from(stops) / arrivals
    }
}

/// The arrivals of a cycle at a link.
fn all_arrivals(link: &SessionLink) -> u128
    ensures value { result ≡ all_arrivals link.now.session.now.net link.now.place }
    ensures small { result < 2 ^ 71 }
{
    total(link.arrivals())
}

/// The GO of a cycle of a link.
fn all_go(link: &SessionLink) -> u128
    ensures value { result ≡ all_go link.now.session.now.net link.now.place }
    ensures small { result < 2 ^ 71 }
{
    total(link.go())
}

/// The degree of saturation of a link.
pub(crate) fn saturation_at(link: &SessionLink) -> u32
    ensures { result ≡ saturation_at link.now.session.now.net link.now.place }
{
    degree_of_saturation(all_arrivals(link), all_go(link))
}

/// The mean number of vehicles that wait at a link, in millionths.
pub(crate) fn waiting_at(link: &SessionLink) -> u128
    ensures value { result ≡ waiting_at link.now.session.now.net link.now.place }
    ensures small { result < 2 ^ 65 }
{
    let figures = link.session.figures(link.place);
    u128::from(figures.uniform) + u128::from(figures.random)
}

/// The stops in a second at a link, in millionths of a vehicle.
pub(crate) fn stops_at(link: &SessionLink) -> u64
    ensures value { result ≡ stops_at link.now.session.now.net link.now.place }
    ensures small { result < 2 ^ 64 }
{
    let figures = link.session.figures(link.place);
    figures.stops
}

/// The figures of a link.
pub fn link_figures(link: &SessionLink) -> LinkFigures
    ensures { result ≡ link_figures link.now.session.now.net link.now.place }
{
    let net = link.session.net();
    let number = link.number();
    let frame = net.frame();
    let arrivals = all_arrivals(link);
    LinkFigures {
        link: number,
        flow: net.total_flow(link.place),
        sent: flow_sent(net, number),
        saturation: saturation_at(link),
        delay: mean_delay(frame.cycle, waiting_at(link), arrivals),
        stopped: part_stopped(frame.cycle, stops_at(link), arrivals),
        queue: greatest(0, link.queue()),
    }
}

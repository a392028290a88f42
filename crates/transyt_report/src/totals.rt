//! The figures of a network in the units of an engineer.
ghost use Rattle.std.specs.Prelude.{◌≡◌, ◌+◌, ◌<◌, length};
ghost use Rattle.std.specs.List.{IsFirstMaxByKey};
ghost use Rattle.transyt_report.specs.Measures.{degree, all_link_figures, worst_of, network_figures};

use crate::measures::{saturation_at, stops_at, waiting_at};
use crate::session_link::SessionLink;
use transyt_session::Session;

/// The figures of a network in the units of an engineer.
#[derive(Clone, Copy)]
pub struct NetworkFigures {
    /// The uniform and random delay of all links without weights, in millionths: vehicle-hours of delay in an hour.
    pub delay: u128,
    /// The stops of all links in a second without weights, in millionths of a vehicle.
    pub stops: u128,
    /// The index of the network, weighted.
    pub index: u128,
    /// The card number of the link with the greatest degree of saturation, the first of equals; 0 without a link.
    pub worst: u32,
}

/// The worse of two links, the first of equals: `worst` is the first link with the greatest degree of saturation among
/// those before `link`.
#[tactic(auto, using(crate::proofs::WorstLaws::worse_taken, crate::proofs::WorstLaws::worse_kept))]
fn worse_of(session: &Session, worst: usize, link: usize) -> usize
    requires link { link < length session.now.net.links }
    requires worst { IsFirstMaxByKey degree (all_link_figures session.now.net) link worst }
    ensures { IsFirstMaxByKey degree (all_link_figures session.now.net) (link + 1) result }
{
    let here = SessionLink {
        session,
        place: link,
    };
    let other = SessionLink {
        session,
        place: worst,
    };
    if saturation_at(&here) > saturation_at(&other) {
        link
    } else {
        worst
    }
}

/// The place of the link with the greatest degree of saturation, the first of equals.
fn worst_place(session: &Session) -> usize
    requires { 0 < length session.now.net.links }
    ensures { IsFirstMaxByKey degree (all_link_figures session.now.net)
        (length session.now.net.links) result }
{
    let net = session.net();
    let mut worst = 0;
    for link in 1..net.links().len() {
        worst = worse_of(session, worst, link);
    }
    worst
}

/// The card number of that link; 0 without a link.
#[tactic(auto, using(crate::proofs::WorstLaws::worst_is, crate::proofs::WorstLaws::no_worst))]
fn worst(session: &Session) -> u32
    ensures { result ≡ worst_of (all_link_figures session.now.net) }
{
    let net = session.net();
    if net.links().is_empty() {
        return 0;
    }
    let place = worst_place(session);
    SessionLink { session, place }.number()
}

/// The figures of the network now.
pub fn network_figures(session: &Session) -> NetworkFigures
    ensures { result ≡ network_figures session.now.net }
{
    let net = session.net();
    let mut delay: u128 = 0;
    let mut stops: u128 = 0;
    for place in 0..net.links().len() {
        let link = SessionLink { session, place };
        delay += waiting_at(&link);
        stops += u128::from(stops_at(&link));
    }
    NetworkFigures {
        delay,
        stops,
        index: session.index(),
        worst: worst(session),
    }
}

//! A change that a tracker follows, and the front that follows it.

ghost use Rattle.std.specs.Prelude.{◌≡◌, ◌<◌, ◌≤◌, length};
ghost use Rattle.std.specs.Option.{ForSome};
ghost use Rattle.transyt_net.specs.Parts.{SameShape};
ghost use Rattle.transyt_track.specs.Own.{ArePlaces, DifferAt, IsRead, places_at};

use crate::own::Places;
use transyt_kept::Rows;
use transyt_net::Net;
use transyt_sweep::Scratch;

/// A change that a tracker follows: two networks of one shape, with the places that each link reads.
#[derive(Clone, Copy)]
pub(crate) struct Change<'a> {
    /// The network before the change.
    pub(crate) before: &'a Net,
    /// The network after it.
    pub(crate) after: &'a Net,
    /// The place of a node, where the networks differ in its times alone.
    pub(crate) node: Option<usize>,
    /// The places that each link reads.
    pub(crate) places: &'a [Places],
    ghost same_shape: { SameShape before.now after.now },
    ghost one_node: { ForSome node (λ place. DifferAt place before.now after.now) },
    ghost are_places: { ArePlaces before.now places.now },
}

/// A link of a change, with the places that it reads in both networks.
#[derive(Clone, Copy)]
pub(crate) struct ChangedLink<'a, 'b> {
    /// The change.
    pub(crate) change: &'a Change<'b>,
    /// The link's place.
    pub(crate) link: usize,
    /// The places that it reads.
    pub(crate) places: &'b Places,
    ghost inside_before: { link < length change.now.before.now.links },
    ghost inside: { link < length change.now.after.now.links },
    ghost places_before: { places.now ≡ places_at change.now.before.now link },
    ghost places_after: { places.now ≡ places_at change.now.after.now link },
}

/// A sweep of a change.
#[derive(Clone, Copy)]
pub(crate) struct ChangedSweep<'a, 'b> {
    /// The change.
    pub(crate) change: &'a Change<'b>,
    /// The number of the sweep, from 1.
    pub(crate) number: u32,
    ghost first: { 1 ≤ number },
    ghost last: { number ≤ change.now.after.now.frame.sweeps },
}

/// A link at a sweep of a change.
#[derive(Clone, Copy)]
pub(crate) struct Pair<'a, 'b> {
    /// The change.
    pub(crate) change: &'a Change<'b>,
    /// The sweep.
    pub(crate) sweep: u32,
    /// The link's place.
    pub(crate) link: usize,
    ghost first: { 1 ≤ sweep },
    ghost last: { sweep ≤ change.now.after.now.frame.sweeps },
    ghost inside: { link < length change.now.after.now.links },
}

/// The rows while they go over from one network to another, and all that changes with them.
#[derive(Drop)]
pub(crate) struct Front {
    /// The rows, with those of the mark.
    pub(crate) kept: Rows,
    /// A flag for each link: its own data differ.
    pub(crate) own_changed: Vec<bool>,
    /// A flag for each link: its departures that were worked out last differ.
    pub(crate) out_changed: Vec<bool>,
    /// Room for the work on one link.
    pub(crate) scratch: Scratch,
}

impl<'b> Change<'b> {
    /// The link at a place.
    pub(crate) fn link<'a>(&'a self, link: usize) -> ChangedLink<'a, 'b>
        requires { link < length self.now.after.now.links }
        ensures change { result.change.now ≡ self.now }
        ensures link { result.link ≡ link }
        ensures read { IsRead self.now.before.now self.now.after.now link result.places.now }
    {
        self.after.frame();
        ChangedLink {
            change: self,
            link,
            places: &self.places[link],
        }
    }
}

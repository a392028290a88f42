//! A tracker's room, beside its networks and its rows.

ghost use Rattle.std.specs.Prelude.{◌≡◌, length, IfOk};
ghost use Rattle.transyt_track.specs.Own.{all_places};

use crate::own::{Places, all_places};
use std::alloc::{AllocError, Global};
use transyt_net::Net;
use transyt_sweep::Scratch;

/// A tracker's room: for each link the places that it reads and two flags; room for the work on one link.
#[derive(Drop)]
pub(crate) struct Room {
    pub(crate) places: Vec<Places>,
    pub(crate) own_changed: Vec<bool>,
    pub(crate) out_changed: Vec<bool>,
    pub(crate) scratch: Scratch,
}

/// Two flags for each link.
fn flags(alloc: Global, net: &Net) -> Result<(Vec<bool>, Vec<bool>), AllocError>
    ensures first { IfOk result (λ flags. length flags.0.items ≡ length net.now.links) }
    ensures second { IfOk result (λ flags. length flags.1.items ≡ length net.now.links) }
{
    let links = net.links().len();
    let first = vec![in alloc; false; links]?;
    let second = vec![in alloc; false; links]?;
    Ok((first, second))
}

impl Room {
    /// Room for a tracker of a network.
    pub(crate) fn open(alloc: Global, net: &Net) -> Result<Room, AllocError>
        ensures places { IfOk result (λ room. room.places.items ≡ all_places net.now) }
        ensures own_count { IfOk result
            (λ room. length room.own_changed.items ≡ length net.now.links) }
        ensures count { IfOk result
            (λ room. length room.out_changed.items ≡ length net.now.links) }
        ensures steps { IfOk result
            (λ room. length room.scratch.arrivals ≡ net.now.frame.step_count) }
    {
        let places = all_places(alloc, net)?;
        let flags = flags(alloc, net)?;
        let scratch = Scratch::open(alloc, net)?;
        Ok(Room {
            places,
            own_changed: flags.0,
            out_changed: flags.1,
            scratch,
        })
    }
}

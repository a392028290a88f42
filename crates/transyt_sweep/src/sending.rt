//! The part of a feeder's departures that goes on to a link.

ghost use Rattle.std.specs.Prelude.{◌≡◌, ◌^◌, ◌<◌, length, slice_index_or, All, IsTrue};
ghost use Rattle.transyt_net.specs.Valid.{link_place};
ghost use Rattle.transyt_profile.specs.Arriving.{arriving};
ghost use Rattle.transyt_sweep.specs.Cell.{taken};
ghost use Rattle.transyt_sweep.specs.declared.factors.Factors.{Factors};
ghost use Rattle.transyt_sweep.specs.Inflow.{AreFactors, Served, carried, read_by};

use crate::factors::Factors;
use crate::feeds::{OneFeed, Sendable};
use crate::inputs::Inputs;
use crate::source::Source;
use transyt_net::Net;
use transyt_profile::{Platoon, share_into};

/// The place of a link's number; the first where there is no such link.
pub(crate) fn link_place(inputs: &Inputs<'_>, number: u32) -> usize
    ensures value { result ≡ link_place inputs.now.net.now number }
    ensures below { result < length inputs.now.net.now.links }
{
    match inputs.net.link_place(number) {
        Some(place) => place,
        None => 0,
    }
}

/// The place of a feeder: `place`, where the feeder stands there, else looked up.
#[tactic(auto, using(crate::proofs::FeederLaws::place_of_number))]
fn feeder_place(inputs: &Inputs<'_>, feeder: u32, place: usize) -> usize
    ensures value { result ≡ link_place inputs.now.net.now feeder }
    ensures below { result < length inputs.now.net.now.links }
{
    if is_at(inputs.net, place, feeder) {
        place
    } else {
        link_place(inputs, feeder)
    }
}

/// Whether the link of a number is at a place.
#[tactic(auto, using(crate::proofs::FeederLaws::place_of_number))]
fn is_at(net: &Net, place: usize, number: u32) -> bool
    ensures below { IsTrue result → place < length net.now.links }
    ensures place { IsTrue result → link_place net.now number ≡ place }
{
    if place >= net.links().len() {
        return false;
    }
    let link = net.link(place);
    link.number == number
}

impl OneFeed<'_> {
    /// Its part of the departures that the cell reads of its feeder, written to `shared`.
    pub(crate) fn share(&self, shared: &mut [u64])
        requires { length shared.old ≡ self.now.inputs.now.step_count }
        ensures value { shared.new ≡ taken self.now.inputs.now.net.now (read_by self.now.inputs.now)
            self.now.feed }
        ensures small { All (λ v. v < 2 ^ 44) shared.new }
    {
        let feeder = link_place(self.inputs, self.feed.feeder);
        let departures = self.inputs.read(feeder);
        let total = self.inputs.net.total_flow(feeder);
        share_into(departures, self.feed.flow, total, shared);
    }

    /// Works the factors that are kept in `slot` out anew, where they are not the feed's. Where its feeder was found last
    /// is looked at first.
    pub(crate) fn renew(&self, slot: &mut Factors)
        requires { AreFactors self.now.inputs.now.net.now.frame.step_count slot.old }
        ensures { Served self.now.inputs.now.net.now self.now.feed slot.new }
    {
        let net = self.inputs.net;
        let feeder = feeder_place(self.inputs, self.feed.feeder, slot.feeder);
        let source = Source {
            net,
            feed: self.feed,
            feeder,
            whole: net.total_flow(feeder),
        };
        source.renew(slot);
    }
}

impl<'a> Sendable<'a> {
    /// The platoon of the feed whose factors are at a place.
    pub(crate) fn platoon(&self, place: usize) -> Platoon<'a>
        requires { place < length self.now.slots.now }
        ensures steps { length result.leaving.now ≡ self.now.inputs.now.step_count }
        ensures brings { (none : Factors) → arriving result
            ≡ carried (read_by self.now.inputs.now) (slice_index_or self.now.slots.now place none) }
    {
        let Sendable { inputs, slots } = *self;
        let factors = &slots[place];
        Platoon {
            leaving: inputs.read(factors.feeder),
            part: &factors.part,
            travel: &factors.travel,
        }
    }
}

//! The arrivals of a link: its entry flow, and the arrivals of its feeds.

ghost use Rattle.std.specs.Prelude.{◌≡◌, ◌+◌, ◌*◌, ◌^◌, ◌<◌, ◌≤◌, ℕ, length, All, IsTrue};
ghost use Rattle.transyt_net.specs.Parts.{link_of};
ghost use Rattle.transyt_profile.specs.Profile.{added, folded};
ghost use Rattle.transyt_sweep.specs.Cell.{brought, inflow};
ghost use Rattle.transyt_sweep.specs.Inflow.{
  AreFactors,
  AreServed,
  HaveRoom,
  HaveSlots,
  IsGroup,
  IsSmall,
  read_by,
  with_carried,
  with_feeds,
};

use crate::cell_rows::CellRows;
use crate::factors::Factors;
use crate::feeds::{Feeds, OneFeed, Sendable};
use crate::inputs::Inputs;
use transyt_net::Feed;
use transyt_profile::{
    Group, add_to_first, disperse, disperse_together, fold_into, start_turns, travel_steps,
};

impl OneFeed<'_> {
    /// Adds the arrivals of the feed to the two turns of arrivals, in millionths of a vehicle per step. `room` is room for
    /// the work.
    fn add(&self, room: &mut [u64], turns: &mut [u64])
        requires room_len { 2 * self.now.inputs.now.step_count ≤ length room.old }
        requires turns { HaveRoom self.now.inputs.now.step_count 1 turns.old }
        ensures value { folded self.now.inputs.now.step_count turns.new
            ≡ added (folded self.now.inputs.now.step_count turns.old)
            (brought self.now.inputs.now.net.now (read_by self.now.inputs.now) self.now.feed) }
        ensures grows { (limit : ℕ)
            → All (λ v. v < limit) (folded self.now.inputs.now.step_count turns.old)
            → All (λ v. v < limit + 2 ^ 44) (folded self.now.inputs.now.step_count turns.new) }
    {
        let inputs = self.inputs;
        let (shared, rest) = room.split_at_mut(inputs.step_count);
        let (brought, _) = rest.split_at_mut(inputs.step_count);
        self.share(shared);
        let frame = inputs.net.frame();
        let time = travel_steps(self.feed.cruise, frame.step_count, frame.cycle);
        disperse(shared, time, frame.dispersion, brought);
        add_to_first(brought, turns);
    }
}

impl Sendable<'_> {
    /// Adds the arrivals by the factors to the two turns, side by side in the lanes, and says so; adds nothing where one of
    /// them can't be sent. Where there are three, the fourth platoon is the third once more, and stays behind.
    fn send(&self, lanes: &mut [u64], turns: &mut [u64]) -> bool
        requires lanes_len { length lanes.old ≡ 4 * self.now.inputs.now.step_count }
        requires turns { HaveRoom self.now.inputs.now.step_count (length self.now.slots.now) turns.old }
        ensures value { IsTrue result → folded self.now.inputs.now.step_count turns.new
            ≡ with_carried (read_by self.now.inputs.now)
            (folded self.now.inputs.now.step_count turns.old) self.now.slots.now }
        ensures grows { IsTrue result → (limit : ℕ)
            → All (λ v. v < limit) (folded self.now.inputs.now.step_count turns.old)
            → All (λ v. v < limit + 4 * 2 ^ 22) (folded self.now.inputs.now.step_count turns.new) }
        ensures stays { (IsTrue result → ⊥) → turns.new ≡ turns.old }
    {
        let count = self.slots.len();
        let platoons = [
            self.platoon(0),
            self.platoon(1),
            self.platoon(2),
            self.platoon(count - 1),
        ];
        let group = Group {
            step_count: self.inputs.step_count,
            platoons: &platoons[..count],
        };
        disperse_together(&group, lanes, turns)
    }
}

impl Feeds<'_> {
    /// Adds the arrivals of the feeds to the two turns of arrivals, one feed after the other. `room` is room for the work
    /// on one.
    fn add_each(&self, room: &mut [u64], turns: &mut [u64])
        requires room_len { 2 * self.now.inputs.now.step_count ≤ length room.old }
        requires turns { HaveRoom self.now.inputs.now.step_count (length self.now.list.now) turns.old }
        ensures value { folded self.now.inputs.now.step_count turns.new
            ≡ with_feeds self.now.inputs.now.net.now (read_by self.now.inputs.now)
            (folded self.now.inputs.now.step_count turns.old) self.now.list.now }
        ensures grows { (limit : ℕ)
            → All (λ v. v < limit) (folded self.now.inputs.now.step_count turns.old)
            → All (λ v. v < limit + length self.now.list.now * 2 ^ 44)
            (folded self.now.inputs.now.step_count turns.new) }
    {
        let Feeds { inputs, list } = *self;
        'feeds: for i in 0..list.len() {
            let feed = list[i];
            let one = OneFeed { inputs, feed };
            one.add(room, turns);
        }
    }

    /// Works the factors of the feeds out anew, each in its slot, where they are not the feed's.
    fn renew(&self, slots: &mut [Factors])
        requires { HaveSlots self.now.inputs.now.net.now.frame.step_count (length self.now.list.now)
            slots.old }
        ensures are { All (AreFactors self.now.inputs.now.net.now.frame.step_count) slots.new }
        ensures served { AreServed self.now.inputs.now.net.now self.now.list.now slots.new }
    {
        let Feeds { inputs, list } = *self;
        'slots: for i in 0..list.len() {
            let feed = list[i];
            let one = OneFeed { inputs, feed };
            one.renew(&mut slots[i]);
        }
    }

    /// Adds the arrivals of three feeds or four to the two turns of arrivals: side by side, by the factors that are kept in
    /// `slots`, where that can be, which takes little more time than one feed does; else one after the other. `room` is
    /// room for the work.
    fn add_together(&self, slots: &mut [Factors], room: &mut [u64], turns: &mut [u64])
        requires group { IsGroup (length self.now.list.now) }
        requires slots { HaveSlots self.now.inputs.now.net.now.frame.step_count
            (length self.now.list.now) slots.old }
        requires room_len { length room.old ≡ 6 * self.now.inputs.now.step_count }
        requires turns { HaveRoom self.now.inputs.now.step_count (length self.now.list.now) turns.old }
        ensures value { folded self.now.inputs.now.step_count turns.new
            ≡ with_feeds self.now.inputs.now.net.now (read_by self.now.inputs.now)
            (folded self.now.inputs.now.step_count turns.old) self.now.list.now }
        ensures grows { (limit : ℕ)
            → All (λ v. v < limit) (folded self.now.inputs.now.step_count turns.old)
            → All (λ v. v < limit + length self.now.list.now * 2 ^ 44)
            (folded self.now.inputs.now.step_count turns.new) }
        ensures slots { All (AreFactors self.now.inputs.now.net.now.frame.step_count) slots.new }
    {
        let (lanes, rest) = room.split_at_mut(4 * self.inputs.step_count);
        self.renew(slots);
        let sendable = Sendable {
            inputs: self.inputs,
            slots,
        };
        if sendable.send(lanes, turns) {
            return;
        }
        self.add_each(rest, turns);
    }

    /// Adds the arrivals of the feeds to the two turns of arrivals: side by side as far as there are slots for their
    /// factors, the rest one after the other. `room` is room for the work on four feeds.
    fn add_all(&self, slots: &mut [Factors], room: &mut [u64], turns: &mut [u64])
        requires slots { All (AreFactors self.now.inputs.now.net.now.frame.step_count) slots.old }
        requires room_len { length room.old ≡ 6 * self.now.inputs.now.step_count }
        requires turns { HaveRoom self.now.inputs.now.step_count (length self.now.list.now) turns.old }
        ensures value { folded self.now.inputs.now.step_count turns.new
            ≡ with_feeds self.now.inputs.now.net.now (read_by self.now.inputs.now)
            (folded self.now.inputs.now.step_count turns.old) self.now.list.now }
        ensures grows { (limit : ℕ)
            → All (λ v. v < limit) (folded self.now.inputs.now.step_count turns.old)
            → All (λ v. v < limit + length self.now.list.now * 2 ^ 44)
            (folded self.now.inputs.now.step_count turns.new) }
        ensures slots { All (AreFactors self.now.inputs.now.net.now.frame.step_count) slots.new }
    {
        let Feeds { inputs, list } = *self;
        let served = list.len().min(slots.len());
        let mut done = 0;
        'groups: while done + 3 <= served {
            let count = group(served - done);
            let own = &mut slots[done..done + count];
            let next = Feeds {
                inputs,
                list: &list[done..done + count],
            };
            next.add_together(own, room, turns);
            done += count;
        }
        let rest = Feeds {
            inputs,
            list: &list[done..],
        };
        rest.add_each(room, turns);
    }
}

/// How many of these feeds are worked out together first: four, or three, or none where fewer are left.
fn group(left: usize) -> usize
    ensures within { result ≤ left }
    ensures some { 3 ≤ left → IsGroup result }
    ensures few { result ≤ 4 }
{
    if left >= 4 {
        4
    } else if left == 3 {
        3
    } else {
        0
    }
}

/// The place of the factors of a link's first feed, eight places a link; the number of places where that is less.
fn own_place(inputs: &Inputs<'_>, places: usize) -> usize
    ensures within { result ≤ places }
    ensures most { result ≤ 7992 }
{
    inputs.net.links();
    places.min(8 * inputs.link)
}

/// The feeds of the link of a cell.
fn feeds_of<'a>(inputs: &Inputs<'a>) -> &'a [Feed]
    ensures value { result.now ≡ (link_of inputs.now.net.now inputs.now.link).feeds }
    ensures small { All IsSmall result.now }
    ensures few { length result.now ≤ 8 }
{
    let net = inputs.net;
    let at = net.link(inputs.link);
    at.feeds.as_slice()
}

impl Inputs<'_> {
    /// Fills in the arrivals of the link before any cut, in millionths of a vehicle per step. `room` is room for the work on
    /// four feeds. The factors of the feeds that are worked out side by side are kept in `kept`, eight places a
    /// link; where it has too few places for the link's, the others are worked out by themselves.
    pub(crate) fn fill_inflow(&self, kept: &mut [Factors], room: &mut [u64], rows: &mut CellRows)
        requires kept { All (AreFactors self.now.net.now.frame.step_count) kept.old }
        requires room_len { length room.old ≡ 8 * self.now.step_count }
        requires steps { length rows.old.arrivals.items ≡ self.now.step_count }
        ensures arrivals { rows.new.arrivals.items
            ≡ inflow self.now.net.now (read_by self.now) self.now.link }
        ensures kept { All (AreFactors self.now.net.now.frame.step_count) kept.new }
    {
        let feeds = Feeds {
            inputs: &*self,
            list: feeds_of(self),
        };
        let (turns, rest) = room.split_at_mut(2 * self.step_count);
        let at = self.net.link(self.link);
        let entry = self.net.per_step(at.entry);
        start_turns(self.step_count, entry, turns);
        let own = own_place(self, kept.len());
        let end = kept.len().min(own + feeds.list.len());
        feeds.add_all(&mut kept[own..end], rest, turns);
        fold_into(turns, &mut rows.arrivals);
    }
}

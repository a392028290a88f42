//! A tracker and its calls.

ghost use Rattle.std.specs.Prelude.{◌≡◌, ◌+◌, ◌*◌, ◌≤◌, ◌<◌, length, IfOk, OnOk, OnErr, None, Some, IsSome};
ghost use Rattle.std.specs.Prelude.{if◌then◌else◌, nat_lt};
ghost use Rattle.std.specs.Option.{is_some};
ghost use Rattle.transyt_net.specs.EditFaults.{edit_fault};
ghost use Rattle.transyt_net.specs.Edits.{with_edit};
ghost use Rattle.transyt_net.specs.Parts.{SameShape};
ghost use Rattle.transyt_sweep.specs.Front.{AreEvaluation};
ghost use Rattle.transyt_sweep.specs.Sweeps.{out_of, evaluated, index};
ghost use Rattle.transyt_track.specs.Due.{due};
ghost use Rattle.transyt_track.specs.Tracker.{unmarked};

use crate::change::{Change, Front};
use crate::found::Found;
use crate::front::follow_rows;
use crate::own::{Places, edited_node};
use crate::returning::copy_rows;
use crate::room::Room;
use std::alloc::{AllocError, Global};
use std::marker::Model;
use std::mem;
use std::sync::ledger::Ledger;
use transyt_delay::Figures;
use transyt_kept::Rows;
use transyt_net::{Edit, Net};
use transyt_steps::Steps;
use transyt_sweep::full;

/// The evaluation of a network, which follows its edits, and can go back to a mark.
///
/// Links and sweeps are numbered as in the network: links in card order from 0, sweeps from 1, and sweep 0 is the
/// start, at which the total flow of each link leaves it. A profile has one value for each step of the cycle.
pub struct Tracker {
    net: Net,
    // the marked network, while a mark is open
    marked: Net,
    places: Vec<Places>,
    front: Front,
}

impl Drop for Tracker {
    // Written out: a derived one is proved again in each crate that lets a value go.
    fn drop(self) {
        let Tracker {
            net: _,
            marked: _,
            places: _,
            front: _,
        } = self;
    }
}

impl Model for Tracker {
    ghost use Rattle.transyt_track.specs.Tracker.{TrackerValue, IsTracking, tracker_of};

    ghost Value = { TrackerValue };

    ghost view = { λ t. tracker_of t.net t.front.kept.marked t.marked };

    // the rows are the evaluation of the network, and those of the mark that of the marked one
    ghost invariant = { λ t.
        IsTracking t.net t.marked t.front t.places.items };
}

impl Tracker {
    /// A tracker of the network, with no mark. It works out each link at each sweep. On an error nothing is left of it.
    pub fn open<L: Ledger>(
        alloc: Global,
        net: &Net,
        steps: &mut Steps<L>,
    ) -> Result<Tracker, AllocError>
        ensures value { IfOk result (λ tracker. tracker ≡ unmarked net.now) }
        ensures ok { OnOk result (steps.new
            ≡ steps.old + net.now.frame.sweeps * length net.now.links) }
        ensures err { OnErr result
            (steps.new ≤ steps.old + net.now.frame.sweeps * length net.now.links) }
    {
        let kept = full(alloc, net, steps)?;
        Tracker::around(alloc, net, kept)
    }

    /// A tracker of the same network, with no mark. It works out no link.
    pub fn twin(&self, alloc: Global) -> Result<Tracker, AllocError>
        requires { self.now.mark ≡ None }
        ensures { IfOk result (λ tracker. tracker ≡ self.now) }
    {
        let mut kept = Rows::empty(alloc, self.front.kept.size())?;
        copy_rows(&self.net, &self.front.kept, &mut kept);
        Tracker::around(alloc, &self.net, kept)
    }

    /// A tracker around the rows of the evaluation of a network, with no mark.
    fn around(alloc: Global, net: &Net, kept: Rows) -> Result<Tracker, AllocError>
        requires rows { AreEvaluation net.now kept.now }
        requires closed { kept.marked ≡ None }
        ensures { IfOk result (λ tracker. tracker ≡ unmarked net.now) }
    {
        let Ok(room) = Room::open(alloc, net) else {
            drop(kept);
            return Err(AllocError);
        };
        let Ok(nets) = Tracker::copies(alloc, net) else {
            drop(kept);
            drop(room);
            return Err(AllocError);
        };
        let front = Front {
            kept,
            own_changed: room.own_changed,
            out_changed: room.out_changed,
            scratch: room.scratch,
        };
        Ok(Tracker {
            net: nets.0,
            marked: nets.1,
            places: room.places,
            front,
        })
    }

    /// Two copies of a network.
    fn copies(alloc: Global, net: &Net) -> Result<(Net, Net), AllocError>
        ensures first { IfOk result (λ nets. nets.0 ≡ net.now) }
        ensures second { IfOk result (λ nets. nets.1 ≡ net.now) }
    {
        let first = net.copy(alloc)?;
        let Ok(second) = net.copy(alloc) else {
            drop(first);
            return Err(AllocError);
        };
        Ok((first, second))
    }

    /// The network that it stands for.
    pub fn net(&self) -> &Net
        ensures { result.now ≡ self.now.net }
    {
        &self.net
    }

    /// Whether a mark is open.
    pub fn is_marked(&self) -> bool
        ensures { result ≡ is_some self.now.mark }
    {
        self.front.kept.is_marked()
    }

    /// The departures of a link at a sweep, in millionths of a vehicle per step.
    pub fn out(&self, sweep: u32, link: usize) -> &[u64]
        requires sweep { sweep ≤ self.now.net.frame.sweeps }
        requires link { link < length self.now.net.links }
        ensures { result.now ≡ out_of self.now.net sweep link }
    {
        self.front.kept.out(sweep, link)
    }

    /// The arrivals of a link at the last sweep, before any cut, in millionths of a vehicle per step.
    pub fn arrivals(&self, link: usize) -> &[u64]
        requires { link < length self.now.net.links }
        ensures { result.now ≡ (evaluated self.now.net link).arrivals }
    {
        self.front.kept.arrivals(link)
    }

    /// The GO of a link at the last sweep, in millionths of a vehicle per step.
    pub fn go(&self, link: usize) -> &[u64]
        requires { link < length self.now.net.links }
        ensures { result.now ≡ (evaluated self.now.net link).go }
    {
        self.front.kept.go(link)
    }

    /// The queue at the end of each step of the last sweep, in millionths of a vehicle.
    pub fn queue(&self, link: usize) -> &[u64]
        requires { link < length self.now.net.links }
        ensures { result.now ≡ (evaluated self.now.net link).queue }
    {
        self.front.kept.queue(link)
    }

    /// The figures of a link at the last sweep, in millionths as those of `transyt_delay`.
    pub fn figures(&self, link: usize) -> Figures
        requires { link < length self.now.net.links }
        ensures { result ≡ (evaluated self.now.net link).figures }
    {
        self.front.kept.figures(link)
    }

    /// The index of the network: the sum of its links' indexes.
    #[tactic(auto, using(transyt_sweep::proofs::IndexLaws::index_is))]
    pub fn index(&self) -> u128
        ensures { result ≡ index self.now.net }
    {
        self.front.kept.index()
    }

    /// Follows edits: stands for `after` then, and returns how many pairs of a link and a sweep were due.
    ///
    /// Each of them is worked out once, in one step, and no other is. The mark stays. It takes no memory.
    pub fn follow<L: Ledger>(&mut self, after: &Net, steps: &mut Steps<L>) -> u64
        requires { SameShape self.old.net after.now }
        ensures net { self.new.net ≡ after.now }
        ensures mark { self.new.mark ≡ self.old.mark }
        ensures due { result ≡ due self.old.net after.now }
        ensures most { result ≤ self.old.net.frame.sweeps * length self.old.net.links }
        ensures few { result ≤ 8000 }
        ensures steps { steps.new ≡ steps.old + result }
    {
        let change = Change {
            before: &self.net,
            after,
            node: None,
            places: &self.places,
        };
        let due = follow_rows(&change, &mut self.front, steps);
        self.net.take_numbers(after);
        due
    }

    /// Follows an allowed edit: stands for `after`, the network with it made, and returns how many pairs were due.
    ///
    /// As `follow`, but it copies no more of the network than the edit sets, and compares no links where the edit
    /// leaves them.
    pub fn follow_edit<L: Ledger>(&mut self, after: &Net, e: Edit, steps: &mut Steps<L>) -> u64
        requires shape { SameShape self.old.net after.now }
        requires allowed { edit_fault self.old.net e ≡ None }
        requires after { after.now ≡ with_edit self.old.net e }
        ensures net { self.new.net ≡ after.now }
        ensures mark { self.new.mark ≡ self.old.mark }
        ensures due { result ≡ due self.old.net after.now }
        ensures few { result ≤ 8000 }
        ensures steps { steps.new ≡ steps.old + result }
    {
        let change = Change {
            before: &self.net,
            after,
            node: edited_node(&self.net, &e),
            places: &self.places,
        };
        let due = follow_rows(&change, &mut self.front, steps);
        make(&mut self.net, e);
        due
    }

    /// Follows an allowed edit to `after`, the network with it made, where the index is below a bound then, and else
    /// stays as it was. Returns the index there, and how many pairs were due.
    ///
    /// Each pair that is due is worked out once, in one step, and no other is. No network is copied. It takes no
    /// memory.
    pub fn follow_below<L: Ledger>(
        &mut self,
        after: &Net,
        e: Edit,
        bound: u128,
        steps: &mut Steps<L>,
    ) -> Found
        requires closed { self.old.mark ≡ None }
        requires shape { SameShape self.old.net after.now }
        requires allowed { edit_fault self.old.net e ≡ None }
        requires after { after.now ≡ with_edit self.old.net e }
        ensures net { self.new.net
            ≡ (if nat_lt (index after.now) bound then after.now else self.old.net) }
        ensures mark { self.new.mark ≡ None }
        ensures index { result.index ≡ index after.now }
        ensures due { result.due ≡ due self.old.net after.now }
        ensures few { result.due ≤ 8000 }
        ensures steps { steps.new ≡ steps.old + result.due }
    {
        self.front.kept.begin();
        let change = Change {
            before: &self.net,
            after,
            node: edited_node(&self.net, &e),
            places: &self.places,
        };
        let due = follow_rows(&change, &mut self.front, steps);
        let index = self.front.kept.index();
        if index < bound {
            make(&mut self.net, e);
            self.front.kept.settle();
        } else {
            self.front.kept.restore();
        }
        Found { index, due }
    }

    /// Stands for the network of another tracker of the same shape. It works out no link and takes no memory.
    pub fn take_over(&mut self, from: &Tracker)
        requires shape { SameShape self.old.net from.now.net }
        requires closed { self.old.mark ≡ None }
        ensures net { self.new.net ≡ from.now.net }
        ensures mark { self.new.mark ≡ None }
    {
        copy_rows(&from.net, &from.front.kept, &mut self.front.kept);
        self.net.take_numbers(&from.net);
    }

    /// Marks the network that it stands for. It takes no memory.
    pub fn begin(&mut self)
        requires { self.old.mark ≡ None }
        ensures net { self.new.net ≡ self.old.net }
        ensures mark { self.new.mark ≡ Some self.old.net }
    {
        self.marked.take_numbers(&self.net);
        self.front.kept.begin();
    }

    /// Stands for the marked network again, and the mark is gone. It takes no memory and no step.
    pub fn restore(&mut self)
        requires { IsSome self.old.mark }
        ensures net { self.old.mark ≡ Some self.new.net }
        ensures mark { self.new.mark ≡ None }
        ensures shape { SameShape self.old.net self.new.net }
    {
        self.front.kept.restore();
        mem::swap(&mut self.net, &mut self.marked);
    }

    /// The mark is gone, and all else stays.
    pub fn settle(&mut self)
        requires { IsSome self.old.mark }
        ensures net { self.new.net ≡ self.old.net }
        ensures mark { self.new.mark ≡ None }
    {
        self.front.kept.settle();
    }
}

/// Makes an allowed edit.
fn make(net: &mut Net, e: Edit)
    requires { edit_fault net.old e ≡ None }
    ensures { net.new ≡ with_edit net.old e }
{
    let _ = net.apply(e);
}

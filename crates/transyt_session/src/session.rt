//! The session.

ghost use Rattle.std.specs.Prelude.{◌≡◌, ◌+◌, ◌*◌, ◌^◌, ◌≤◌, ◌<◌, length, Option, Some, None, IfOk, IfErr, OnOk, OnErr, is_some, is_none, is_err};
ghost use Rattle.transyt_net.specs.EditFaults.{edit_fault};
ghost use Rattle.transyt_net.specs.Edits.{with_edit};
ghost use Rattle.transyt_net.specs.Parts.{SameShape};
ghost use Rattle.transyt_sweep.specs.Sweeps.{index, out_of, evaluated};
ghost use Rattle.transyt_track.specs.Due.{due, edit_work};
ghost use Rattle.transyt_session.specs.Session.{SessionValue, opened, edited_net, edited, reply_to, tried_below, try_of, trial_of, back_of, keep_of, credited, standing_for, lowered, lower_index};

use crate::answers::{NoTrial, Reply, TrialOpen, Tried};
use std::alloc::{AllocError, Global};
use std::marker::Model;
use std::mem;
use std::sync::ledger::Ledger;
use transyt_delay::Figures;
use transyt_net::{Edit, EditFault, Net};
use transyt_steps::Steps;
use transyt_track::Tracker;

/// A network with its evaluation, at most one open trial, and the work so far.
pub struct Session {
    net: Net,
    tracker: Tracker,
    work: u64,
}

impl Drop for Session {
    // Written out: a derived one is proved again in each crate that lets a value go.
    fn drop(self) {
        let Session {
            net: _,
            tracker: _,
            work: _,
        } = self;
    }
}

impl Model for Session {
    ghost use Rattle.std.specs.Prelude.{◌≡◌};
    ghost use Rattle.transyt_session.specs.Session.{SessionValue};

    ghost Value = { SessionValue };

    ghost view = { λ s. record { net = s.net; before = s.tracker.mark; work = s.work } };

    ghost invariant = { λ s. s.tracker.net ≡ s.net };
}

impl Session {
    /// A session of this network: no trial, and no work. It works out each sweep of each link once.
    ///
    /// It takes all the memory that the session ever needs. Without it the network is given up.
    pub fn open<L: Ledger>(
        alloc: Global,
        net: Net,
        steps: &mut Steps<L>,
    ) -> Result<Self, AllocError>
        ensures value { IfOk result (λ s. s ≡ opened net) }
        ensures ok { OnOk result (steps.new ≡ steps.old + net.frame.sweeps * length net.links) }
        ensures err { OnErr result (steps.new ≤ steps.old + net.frame.sweeps * length net.links) }
    {
        let Ok(tracker) = Tracker::open(alloc, &net, steps) else {
            drop(net);
            return Err(AllocError);
        };
        Ok(Session {
            net,
            tracker,
            work: 0,
        })
    }

    /// Another session of the same network, with memory of its own and no work. It works out nothing.
    pub fn twin(&self, alloc: Global) -> Result<Self, AllocError>
        requires closed { self.now.before ≡ None }
        ensures { IfOk result (λ s. s ≡ opened self.now.net) }
    {
        let net = self.net.copy(alloc)?;
        let Ok(tracker) = self.tracker.twin(alloc) else {
            drop(net);
            return Err(AllocError);
        };
        Ok(Session {
            net,
            tracker,
            work: 0,
        })
    }

    /// The network now.
    pub fn net(&self) -> &Net
        ensures { result.now ≡ self.now.net }
    {
        &self.net
    }

    /// Whether a trial is open.
    pub fn is_trial(&self) -> bool
        ensures { result ≡ is_some self.now.before }
    {
        self.tracker.is_marked()
    }

    /// The work so far, in pairs of a sweep and a link that were worked out anew.
    pub fn work(&self) -> u64
        ensures { result ≡ self.now.work }
    {
        self.work
    }

    /// The arrivals of a link, in units: one value for each step of the cycle, before any cut.
    pub fn arrivals(&self, link: usize) -> &[u64]
        requires { link < length self.now.net.links }
        ensures { result.now ≡ (evaluated self.now.net link).arrivals }
    {
        self.tracker.arrivals(link)
    }

    /// The GO of a link, in units: one value for each step of the cycle.
    pub fn go(&self, link: usize) -> &[u64]
        requires { link < length self.now.net.links }
        ensures { result.now ≡ (evaluated self.now.net link).go }
    {
        self.tracker.go(link)
    }

    /// The queue of a link at the end of each step of the cycle, in units.
    pub fn queue(&self, link: usize) -> &[u64]
        requires { link < length self.now.net.links }
        ensures { result.now ≡ (evaluated self.now.net link).queue }
    {
        self.tracker.queue(link)
    }

    /// The departures of a link, in units: one value for each step of the cycle, at the last sweep.
    pub fn out(&self, link: usize) -> &[u64]
        requires { link < length self.now.net.links }
        ensures { result.now ≡ out_of self.now.net self.now.net.frame.sweeps link }
    {
        self.tracker.out(self.net.frame().sweeps, link)
    }

    /// The figures of a link.
    pub fn figures(&self, link: usize) -> Figures
        requires { link < length self.now.net.links }
        ensures { result ≡ (evaluated self.now.net link).figures }
    {
        self.tracker.figures(link)
    }

    /// The index of the network.
    pub fn index(&self) -> u128
        ensures { result ≡ index self.now.net }
    {
        self.tracker.index()
    }

    /// Makes an edit where it is allowed. In a trial it is part of the trial, and its work counts all the same.
    ///
    /// It takes no memory. A refused edit changes nothing.
    pub fn edit<L: Ledger>(&mut self, e: Edit, steps: &mut Steps<L>) -> Reply
        requires room { self.old.work ≤ 2 ^ 62 }
        ensures state { self.new ≡ edited e self.old }
        ensures reply { result ≡ reply_to self.old.net e }
        ensures few { self.new.work ≤ self.old.work + 8000 }
        ensures steps { steps.new ≡ steps.old + edit_work self.old.net e }
    {
        match make(&mut self.net, e) {
            Ok(_) => {
                let work = self.tracker.follow_edit(&self.net, e, steps);
                self.work += work;
                Reply::Done { work }
            }
            Err(fault) => Reply::Refused(fault),
        }
    }

    /// Opens a trial. It takes no memory.
    pub fn trial(&mut self) -> Result<(), TrialOpen>
        ensures state { self.new ≡ trial_of self.old }
        ensures open { is_err result ≡ is_some self.old.before }
    {
        if self.tracker.is_marked() {
            return Err(TrialOpen);
        }
        self.tracker.begin();
        Ok(())
    }

    /// Takes the trial back: network, rows and index are those from before it, and the work stays. It takes no memory
    /// and no step.
    pub fn back(&mut self) -> Result<(), NoTrial>
        ensures state { self.new ≡ back_of self.old }
        ensures none { is_err result ≡ is_none self.old.before }
    {
        if !self.tracker.is_marked() {
            return Err(NoTrial);
        }
        self.tracker.restore();
        self.net.take_numbers(self.tracker.net());
        Ok(())
    }

    /// Keeps the edits of the trial, and closes it. It takes no memory.
    pub fn keep(&mut self) -> Result<(), NoTrial>
        ensures state { self.new ≡ keep_of self.old }
        ensures none { is_err result ≡ is_none self.old.before }
    {
        if !self.tracker.is_marked() {
            return Err(NoTrial);
        }
        self.tracker.settle();
        Ok(())
    }

    /// Tries an edit: finds the index with it made. All stays as it is, the work too; only steps are made. It takes no
    /// memory.
    pub fn try_edit<L: Ledger>(&mut self, e: Edit, steps: &mut Steps<L>) -> Tried
        requires closed { self.old.before ≡ None }
        ensures tried { result ≡ try_of self.old.net e }
        ensures same { self.new ≡ self.old }
        ensures few { edit_work self.old.net e ≤ 8000 }
        ensures steps { steps.new ≡ steps.old + edit_work self.old.net e }
    {
        self.try_below(e, 0, steps)
    }

    /// Tries an edit, and makes it where it is allowed and brings the index below a bound. Otherwise all stays as it is;
    /// in either case the work does, and only steps are made. It takes no memory.
    pub fn try_below<L: Ledger>(&mut self, e: Edit, bound: u128, steps: &mut Steps<L>) -> Tried
        requires closed { self.old.before ≡ None }
        ensures tried { result ≡ try_of self.old.net e }
        ensures state { self.new ≡ tried_below bound e self.old }
        ensures few { edit_work self.old.net e ≤ 8000 }
        ensures steps { steps.new ≡ steps.old + edit_work self.old.net e }
    {
        let Ok(back) = make(&mut self.net, e) else {
            return Tried::Barred;
        };
        let found = self.tracker.follow_below(&self.net, e, bound, steps);
        if found.index >= bound {
            let _ = self.net.apply(back);
        }
        Tried::Index {
            index: found.index,
            work: found.due,
        }
    }

    /// Makes an edit where it is allowed and lowers the index, and answers the index then. Otherwise all but the work
    /// stays as it is; the work of an allowed edit counts in either case. It takes no memory.
    pub fn lower<L: Ledger>(&mut self, e: Edit, steps: &mut Steps<L>) -> Option<u128>
        requires closed { self.old.before ≡ None }
        requires room { self.old.work ≤ 2 ^ 62 }
        ensures state { self.new ≡ lowered e self.old }
        ensures found { result ≡ lower_index self.old.net e }
        ensures few { self.new.work ≤ self.old.work + 8000 }
        ensures steps { steps.new ≡ steps.old + edit_work self.old.net e }
    {
        let bound = self.index();
        match self.try_below(e, bound, steps) {
            Tried::Index { index, work } => {
                self.work += work;
                if index < bound { Some(index) } else { None }
            }
            Tried::Barred => None,
        }
    }

    /// Adds to the work.
    pub fn credit(&mut self, work: u64)
        requires room { self.old.work + work ≤ 2 ^ 63 }
        ensures { self.new ≡ credited work self.old }
    {
        self.work += work;
    }

    /// Stands for another network of the same shape from now on, with the work as it was. It takes no memory.
    pub fn stand_for<L: Ledger>(&mut self, net: &Net, steps: &mut Steps<L>)
        requires shape { SameShape self.old.net net.now }
        requires closed { self.old.before ≡ None }
        ensures state { self.new ≡ standing_for net.now self.old }
        ensures steps { steps.new ≡ steps.old + due self.old.net net.now }
    {
        self.net.take_numbers(net);
        self.tracker.follow(net, steps);
    }

    /// Stands for the network of another session of the same shape from now on, with the work as it was. It works out
    /// nothing and takes no memory.
    pub fn take_over(&mut self, from: &Session)
        requires shape { SameShape self.old.net from.now.net }
        requires closed { self.old.before ≡ None }
        ensures { self.new ≡ standing_for from.now.net self.old }
    {
        self.net.take_numbers(&from.net);
        self.tracker.take_over(&from.tracker);
    }

    /// Trades networks with another session, and each keeps its work. It works out nothing and takes no memory.
    pub fn trade(&mut self, other: &mut Session)
        requires closed { self.old.before ≡ None }
        requires other_closed { other.old.before ≡ None }
        ensures value { self.new ≡ standing_for other.old.net self.old }
        ensures other { other.new ≡ standing_for self.old.net other.old }
    {
        mem::swap(&mut self.net, &mut other.net);
        mem::swap(&mut self.tracker, &mut other.tracker);
    }
}

/// Makes an edit where it is allowed, and gives its inverse.
fn make(net: &mut Net, e: Edit) -> Result<Edit, EditFault>
    ensures net { net.new ≡ edited_net net.old e }
    ensures ok { IfOk result (λ back. edit_fault net.old e ≡ None) }
    ensures err { IfErr result (λ fault. edit_fault net.old e ≡ Some fault) }
    ensures undoes { IfOk result (λ back. with_edit net.new back ≡ net.old) }
    ensures allowed { IfOk result (λ back. edit_fault net.new back ≡ None) }
    ensures shape { SameShape net.old net.new }
{
    net.apply(e)
}

//! The front: the rows go over from one network to another of its shape, a link at a sweep at a time, in order.

ghost use Rattle.std.specs.Prelude.{◌≡◌, ◌+◌, ◌<◌, ◌≤◌, ◌||◌, not, length, if◌then◌else◌};
ghost use Rattle.std.specs.Str.{bytes_eq};
ghost use Rattle.std.specs.Option.{is_some};
ghost use Rattle.transyt_net.specs.Parts.{link_of};
ghost use Rattle.transyt_sweep.specs.Front.{AreEvaluation};
ghost use Rattle.transyt_track.specs.Due.{is_due, due_at, due};
ghost use Rattle.transyt_track.specs.Change.{HasRoom, IsFront};
ghost use Rattle.transyt_track.specs.Front.{flag};

use crate::change::{Change, ChangedSweep, Front, Pair};
use crate::reading::is_due;
use crate::replacing::{Differs, leave, place};
use crate::starting::set_out;
use std::sync::ledger::Ledger;
use transyt_steps::Steps;
use transyt_sweep::cell;

/// Whether rows of as many steps differ. All steps are read: with no jump out, several are compared at a time.
fn differ(one: &[u64], other: &[u64]) -> bool
    requires { length one.now ≡ length other.now }
    ensures { result ≡ not (bytes_eq one.now other.now) }
{
    let mut bits = 0;
    for i in 0..one.len() {
        bits |= one[i] ^ other[i];
    }
    bits != 0
}

/// Whether a link's GO may differ: its own data do, or it gives way to another link.
fn go_may_differ(pair: &Pair<'_, '_>, own_changed: &[bool]) -> bool
    requires { length own_changed.now ≡ length pair.now.change.now.after.now.links }
    ensures { result ≡ (flag own_changed.now pair.now.link
        || is_some (link_of pair.now.change.now.after.now pair.now.link).gives_way) }
{
    let at = pair.change.after.link(pair.link);
    own_changed[pair.link] || at.gives_way.is_some()
}

/// The pair at the front is due: it is worked out.
fn work_out<L: Ledger>(pair: &Pair<'_, '_>, front: &mut Front, steps: &mut Steps<L>)
    requires { IsFront pair.now.change.now pair.now.sweep pair.now.link front.old }
    ensures front { IsFront pair.now.change.now pair.now.sweep (pair.now.link + 1) front.new }
    ensures marked { front.new.kept.marked ≡ front.old.kept.marked }
    ensures steps { steps.new ≡ steps.old + 1 }
{
    let sweep = pair.sweep;
    let link = pair.link;
    cell(
        pair.change.after,
        link,
        sweep,
        &front.kept,
        &mut front.scratch,
        steps,
    );
    let out = differ(front.kept.out(sweep, link), front.scratch.out());
    let go = go_may_differ(pair, &front.own_changed);
    front.out_changed[link] = out;
    place(pair, Differs { out, go }, front);
}

/// One turn: the pair at the front is worked out if it is due, and else left. Returns how many were worked out: 1 or 0.
fn turn<L: Ledger>(pair: &Pair<'_, '_>, front: &mut Front, steps: &mut Steps<L>) -> u64
    requires { IsFront pair.now.change.now pair.now.sweep pair.now.link front.old }
    ensures front { IsFront pair.now.change.now pair.now.sweep (pair.now.link + 1) front.new }
    ensures marked { front.new.kept.marked ≡ front.old.kept.marked }
    ensures count { result ≡ (if is_due pair.now.change.now.before.now pair.now.change.now.after.now
        pair.now.sweep pair.now.link then 1 else 0) }
    ensures steps { steps.new ≡ steps.old + result }
{
    if is_due(pair, front) {
        work_out(pair, front, steps);
        1
    } else {
        front.out_changed[pair.link] = false;
        leave(pair, &mut front.kept);
        0
    }
}

impl ChangedSweep<'_, '_> {
    /// A turn for each link in order. Returns how many links were due.
    fn follow<L: Ledger>(&self, front: &mut Front, steps: &mut Steps<L>) -> u64
        requires { IsFront self.now.change.now self.now.number 0 front.old }
        ensures front { IsFront self.now.change.now (self.now.number + 1) 0 front.new }
        ensures marked { front.new.kept.marked ≡ front.old.kept.marked }
        ensures count { result ≡ due_at self.now.change.now.before.now self.now.change.now.after.now
            self.now.number }
        ensures steps { steps.new ≡ steps.old + result }
    {
        // a copy, whose places and networks the writes to the front can't alter, stays in registers
        let change = *self.change;
        let sweep = self.number;
        let mut count = 0;
        for link in 0..change.after.links().len() {
            let pair = Pair {
                change: &change,
                sweep,
                link,
            };
            count += turn(&pair, front, steps);
        }
        count
    }
}

/// The rows go over from one network to another. Returns how many pairs of a link and a sweep were due.
pub(crate) fn follow_rows<L: Ledger>(
    change: &Change<'_>,
    front: &mut Front,
    steps: &mut Steps<L>,
) -> u64
    requires rows { AreEvaluation change.now.before.now front.old.kept.now }
    requires room { HasRoom change.now.after.now front.old }
    ensures rows { AreEvaluation change.now.after.now front.new.kept.now }
    ensures marked { front.new.kept.marked ≡ front.old.kept.marked }
    ensures room { HasRoom change.now.after.now front.new }
    ensures count { result ≡ due change.now.before.now change.now.after.now }
    ensures few { result ≤ 8000 }
    ensures steps { steps.new ≡ steps.old + result }
{
    set_out(change, front);
    let mut count = 0;
    for number in 1..change.after.frame().sweeps + 1 {
        let sweep = ChangedSweep {
            change: &*change,
            number,
        };
        count += sweep.follow(front, steps);
    }
    count
}

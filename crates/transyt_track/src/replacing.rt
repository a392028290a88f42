//! The writes of rows. The rows of the mark stay.

ghost use Rattle.std.specs.Prelude.{◌≡◌, ◌<◌, ◌≤◌, false, length};
ghost use Rattle.transyt_kept.specs.Rows.{AreRows, out_at, shown_at, placed, with_out, with_rest};
ghost use Rattle.transyt_sweep.specs.Reading.{Fits};
ghost use Rattle.transyt_sweep.specs.Sweeps.{evaluated};
ghost use Rattle.transyt_track.specs.Front.{left_at};

use crate::change::{Front, Pair};
use crate::own::same_weights;
use transyt_kept::Rows;
use transyt_sweep::{Scratch, reweigh};

/// Writes a link's departures at a sweep from a scratch, where they differ.
fn place_out(pair: &Pair<'_, '_>, differ: bool, scratch: &Scratch, kept: &mut Rows)
    requires sweep { pair.now.sweep ≤ kept.old.now.sweeps }
    requires link { pair.now.link < length kept.old.now.figures }
    requires steps { length scratch.now.arrivals ≡ kept.old.now.step_count }
    requires same { differ ≡ false
        → out_at kept.old.now pair.now.sweep pair.now.link ≡ scratch.now.out }
    ensures { kept.new ≡ record kept.old {
      now = with_out kept.old.now pair.now.sweep pair.now.link scratch.now.out;
    } }
{
    if differ {
        kept.put_out(pair.sweep, pair.link, scratch.out());
    }
}

/// Writes the rest of a link at the last sweep from a scratch: arrivals, queue and figures, and GO where it may differ.
fn place_shown(link: usize, may_differ: bool, scratch: &Scratch, kept: &mut Rows)
    requires link { link < length kept.old.now.figures }
    requires steps { length scratch.now.arrivals ≡ kept.old.now.step_count }
    requires same { may_differ ≡ false → (shown_at kept.old.now link).go ≡ scratch.now.go }
    ensures { kept.new ≡ record kept.old { now = with_rest kept.old.now link scratch.now } }
{
    kept.put_arrivals(link, scratch.arrivals(), scratch.queue(), scratch.figures());
    if may_differ {
        kept.put_go(link, scratch.go());
    }
}

/// Whether the departures of a link that is written differ from those of the rows, and whether its GO may.
#[derive(Clone, Copy)]
pub(crate) struct Differs {
    /// Whether the departures differ.
    pub(crate) out: bool,
    /// Whether the GO may differ.
    pub(crate) go: bool,
}

/// Writes a link at a sweep from the scratch of the front, at the last sweep all of it.
pub(crate) fn place(pair: &Pair<'_, '_>, differs: Differs, front: &mut Front)
    requires fits { Fits pair.now.change.now.after.now front.old.kept.now }
    requires steps { length front.old.scratch.arrivals ≡ front.old.kept.now.step_count }
    requires out_same { differs.out ≡ false
        → out_at front.old.kept.now pair.now.sweep pair.now.link ≡ front.old.scratch.out }
    requires go_same { pair.now.sweep ≡ pair.now.change.now.after.now.frame.sweeps
        → differs.go ≡ false
        → (shown_at front.old.kept.now pair.now.link).go ≡ front.old.scratch.go }
    ensures value { front.new.kept ≡ record front.old.kept {
      now = placed front.old.kept.now pair.now.sweep pair.now.link front.old.scratch;
    } }
    ensures rows { AreRows front.old.kept.now }
    ensures scratch { front.new.scratch ≡ front.old.scratch }
    ensures out_changed { front.new.out_changed ≡ front.old.out_changed }
    ensures own_changed { front.new.own_changed ≡ front.old.own_changed }
{
    let net = pair.change.after;
    let sweep = pair.sweep;
    let link = pair.link;
    front.kept.index();
    place_out(pair, differs.out, &front.scratch, &mut front.kept);
    if sweep == net.frame().sweeps {
        place_shown(link, differs.go, &front.scratch, &mut front.kept);
    }
}

/// A link that isn't due is weighed anew at the last sweep; where its weights are equal, its index stays.
pub(crate) fn leave(pair: &Pair<'_, '_>, kept: &mut Rows)
    requires fits { Fits pair.now.change.now.after.now kept.old.now }
    requires shown { pair.now.sweep ≡ pair.now.change.now.after.now.frame.sweeps
        → shown_at kept.old.now pair.now.link
        ≡ evaluated pair.now.change.now.before.now pair.now.link }
    ensures { kept.new ≡ record kept.old {
      now = left_at pair.now.change.now.after.now pair.now.sweep pair.now.link kept.old.now;
    } }
{
    let after = pair.change.after;
    let link = pair.link;
    if pair.sweep != after.frame().sweeps {
        return;
    }
    if !same_weights(&pair.change.link(link)) {
        let figures = kept.figures(link);
        kept.put_figures(link, reweigh(after, link, figures));
    }
}

//! The rows of a network: new ones, and the writes of one link in them.

ghost use Rattle.std.specs.Prelude.{◌≡◌, ◌<◌, ◌≤◌, length, IfOk, None};
ghost use Rattle.transyt_kept.specs.Rows.{empty_rows, with_out, placed, AreRows};
ghost use Rattle.transyt_kept.specs.Marked.{KeptValue, unmarked};
ghost use Rattle.transyt_sweep.specs.Opened.{AreOpened};
ghost use Rattle.transyt_sweep.specs.Reading.{Fits, with_weights};
ghost use Rattle.transyt_sweep.specs.Sweeps.{start};

use crate::figures::reweigh;
use crate::scratch::Scratch;
use std::alloc::{AllocError, Global};
use transyt_kept::{Rows, Size};
use transyt_net::Net;

/// The calls of `Rows` that take a network or the work on one of its links.
pub trait RowsOfNetwork: Sized {
    /// The rows, with those of the mark.
    ghost rows: { Self → KeptValue };

    /// Rows for the network, with no mark. Before the first sweep the total flow of each link leaves it, and all else
    /// is 0. On an error nothing is left of them.
    fn open(alloc: Global, net: &Net) -> Result<Self, AllocError>
        ensures opened { IfOk result (λ opened. AreOpened net.now (rows opened).now) }
        ensures unmarked { IfOk result (λ opened. (rows opened).marked ≡ None) };

    /// The departures of the link before the first sweep become the uniform profile of its total flow.
    fn start(&mut self, net: &Net, link: usize)
        requires fits { Fits net.now (rows self.old).now }
        requires link { link < length net.now.links }
        ensures value { rows self.new ≡ record (rows self.old) {
          now = with_out (rows self.old).now 0 link (start net.now link);
        } }
        ensures kept { AreRows (rows self.old).now };

    /// Keeps a link at a sweep: its departures, and at the last sweep all of it.
    fn place(&mut self, sweep: u32, link: usize, scratch: &Scratch)
        requires last { sweep ≤ (rows self.old).now.sweeps }
        requires link { link < length (rows self.old).now.figures }
        requires steps { length scratch.now.arrivals ≡ (rows self.old).now.step_count }
        ensures value { rows self.new ≡ record
            (rows self.old) { now = placed (rows self.old).now sweep link scratch.now } }
        ensures kept { AreRows (rows self.old).now };

    /// The index of a link becomes that of the network's stop penalty and the link's weights. It is no step.
    fn reweigh(&mut self, net: &Net, link: usize)
        requires fits { Fits net.now (rows self.old).now }
        requires link { link < length net.now.links }
        ensures { rows self.new ≡ record
            (rows self.old) { now = with_weights (rows self.old).now net.now link } };
}

impl RowsOfNetwork for Rows {
    ghost rows = { λ r. r };

    fn open(alloc: Global, net: &Net) -> Result<Rows, AllocError> {
        let mut rows = Rows::empty(alloc, size_of(net))?;
        fill_starts(net, &mut rows);
        Ok(rows)
    }

    fn start(&mut self, net: &Net, link: usize) {
        self.fill_out(0, link, net.per_step(net.total_flow(link)));
    }

    fn place(&mut self, sweep: u32, link: usize, scratch: &Scratch) {
        self.put_out(sweep, link, scratch.out());
        if sweep == self.size().sweeps {
            self.put_arrivals(link, scratch.arrivals(), scratch.queue(), scratch.figures());
            self.put_go(link, scratch.go());
        }
    }

    fn reweigh(&mut self, net: &Net, link: usize) {
        let figures = self.figures(link);
        self.put_figures(link, reweigh(net, link, figures));
    }
}

/// How many steps, sweeps and links a network has.
fn size_of(net: &Net) -> Size
    ensures step_count { result.step_count ≡ net.now.frame.step_count }
    ensures sweeps { result.sweeps ≡ net.now.frame.sweeps }
    ensures link_count { result.link_count ≡ length net.now.links }
{
    let frame = net.frame();
    Size {
        step_count: frame.step_count as usize,
        sweeps: frame.sweeps,
        link_count: net.links().len(),
    }
}

/// Starts each link.
fn fill_starts(net: &Net, rows: &mut Rows)
    requires { rows.old ≡ unmarked (empty_rows net.now.frame.step_count net.now.frame.sweeps
        (length net.now.links)) }
    ensures opened { AreOpened net.now rows.new.now }
    ensures unmarked { rows.new.marked ≡ None }
{
    for link in 0..net.links().len() {
        rows.start(net, link);
    }
}

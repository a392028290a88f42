//! The inputs of a cell.

ghost use Rattle.std.specs.Prelude.{◌≡◌, ◌^◌, ◌<◌, ◌≤◌, length, All};
ghost use Rattle.transyt_sweep.specs.Reading.{read_in};
ghost use Rattle.transyt_sweep.specs.Sweeps.{read_at};

use transyt_kept::Rows;
use transyt_net::Net;

/// The inputs of one cell: a link at a sweep of a network, and the rows whose departures it reads.
///
/// The rows are of the network's size.
#[derive(Clone, Copy)]
pub(crate) struct Inputs<'a> {
    /// The network.
    pub(crate) net: &'a Net,
    /// The rows.
    pub(crate) rows: &'a Rows,
    /// The link's place, from 0 in card order.
    pub(crate) link: usize,
    /// The sweep.
    pub(crate) sweep: u32,
    /// The steps of the cycle.
    pub(crate) step_count: usize,
    ghost link_within: { link < length net.now.links },
    ghost sweep_within: { sweep ≤ net.now.frame.sweeps },
    ghost steps: { step_count ≡ net.now.frame.step_count },
    ghost some: { 0 < step_count },
    ghost most: { step_count ≤ 120 },
    ghost rows_steps: { rows.now.now.step_count ≡ step_count },
    ghost rows_sweeps: { rows.now.now.sweeps ≡ net.now.frame.sweeps },
    ghost rows_links: { length rows.now.now.figures ≡ length net.now.links },
}

/// The sweep at which a link, at a sweep, reads another.
fn read_at(sweep: u32, link: usize, other: usize) -> u32
    ensures value { result ≡ read_at sweep link other }
    ensures within { result ≤ sweep }
{
    if other < link {
        sweep
    } else {
        sweep.saturating_sub(1)
    }
}

impl<'a> Inputs<'a> {
    /// The departures that the link reads of another: those of this sweep where that stands earlier, else those of
    /// the one before.
    pub(crate) fn read(&self, other: usize) -> &'a [u64]
        requires { other < length self.now.rows.now.now.figures }
        ensures value { result.now ≡ read_in self.now.rows.now.now self.now.sweep self.now.link
            other }
        ensures steps { length result.now ≡ self.now.step_count }
        ensures small { All (λ v. v < 2 ^ 30) result.now }
    {
        let rows = self.rows;
        rows.out(read_at(self.sweep, self.link, other), other)
    }
}

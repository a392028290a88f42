//! The rows of an evaluation, with a mark.

ghost use Rattle.std.specs.Prelude.{◌≡◌, ◌<◌, ◌≤◌, ◌^◌, length, All, slice_index_or, IfOk, IsSome, Some, None};
ghost use Rattle.std.specs.Option.{is_some};
ghost use Rattle.transyt_profile.specs.Profile.{uniform};
ghost use Rattle.transyt_kept.specs.Cell.{no_figures, AreSmall};
ghost use Rattle.transyt_kept.specs.Rows.{row, out_at, pair_place, pair_in, index_in, empty_rows};
ghost use Rattle.transyt_kept.specs.Rows.{with_out, with_figures, with_arrivals, with_go, placed};
ghost use Rattle.transyt_kept.specs.Rows.{SameSize, AreRows};
ghost use Rattle.transyt_kept.specs.Marked.{unmarked};

use crate::figure_table::FigureTable;
use crate::size::Size;
use crate::table::{Table, three_tables};
use std::alloc::{AllocError, Global};
use std::marker::Model;
use transyt_delay::Figures;

/// The departures of each link at each sweep, and all of the last sweep: the rows now, and while a mark is open those
/// that were there when it was set.
///
/// Sweeps count from 0, which is the uniform start, and links in card order from 0. A profile has one value for each
/// step of the cycle. That a link has profiles which repeat each cycle is from LR 253; the sweeps and the mark are this
/// project's own.
///
/// Rows know no network: the calls that read one (`open`, `place`, `start`, `reweigh`) are the trait `RowsOfNetwork` of
/// transyt_sweep.
pub struct Rows {
    size: Size,
    is_open: bool,
    outs: Table,
    arrivals: Table,
    go: Table,
    queue: Table,
    figures: FigureTable,
    index: u128,
    // the index of the mark
    mark_index: u128,
}

impl Drop for Rows {
    // Written out: a derived one is proved again in each crate that lets a value go.
    fn drop(self) {
        let Rows {
            size: _,
            is_open: _,
            outs: _,
            arrivals: _,
            go: _,
            queue: _,
            figures: _,
            index: _,
            mark_index: _,
        } = self;
    }
}

impl Model for Rows {
    ghost use Rattle.transyt_kept.specs.Rows.{rows_of};
    ghost use Rattle.transyt_kept.specs.Marked.{KeptValue};
    ghost use Rattle.transyt_kept.specs.Versions.{AreKept, kept_of};

    ghost Value = { KeptValue };

    ghost view = { λ r. kept_of r.is_open
        (rows_of r.size.step_count r.size.sweeps r.outs.now r.arrivals.now r.go.now r.queue.now r.figures.now)
        (rows_of r.size.step_count r.size.sweeps r.outs.mark r.arrivals.mark r.go.mark r.queue.mark
        r.figures.mark) };

    // the kept indexes are the sums of the figures' indexes
    ghost invariant = { λ r. AreKept r.size.link_count
        (rows_of r.size.step_count r.size.sweeps r.outs.now r.arrivals.now r.go.now r.queue.now r.figures.now)
        (rows_of r.size.step_count r.size.sweeps r.outs.mark r.arrivals.mark r.go.mark r.queue.mark
        r.figures.mark)
        r.index r.mark_index };
}

impl Rows {
    /// Rows in which all is 0, with no mark. All their memory is taken here, with that of a mark. On an error nothing
    /// is left of them.
    pub fn empty(alloc: Global, size: Size) -> Result<Rows, AllocError>
        ensures { IfOk result (λ rows. rows
            ≡ unmarked (empty_rows size.step_count size.sweeps size.link_count)) }
    {
        let shown = size.links();
        let figures = FigureTable::empty(alloc, shown.row_count)?;
        let Ok(outs) = Table::empty(alloc, size.pairs()) else {
            drop(figures);
            return Err(AllocError);
        };
        let Ok((arrivals, go, queue)) = three_tables(alloc, shown) else {
            drop(figures);
            drop(outs);
            return Err(AllocError);
        };
        Ok(Rows {
            size,
            is_open: false,
            outs,
            arrivals,
            go,
            queue,
            figures,
            index: 0,
            mark_index: 0,
        })
    }

    /// The departures of a link at a sweep, in millionths of a vehicle per step.
    pub fn out(&self, sweep: u32, link: usize) -> &[u64]
        requires sweep { sweep ≤ self.now.now.sweeps }
        requires link { link < length self.now.now.figures }
        ensures value { result.now ≡ out_at self.now.now sweep link }
        ensures steps { length result.now ≡ self.now.now.step_count }
        ensures small { All (λ v. v < 2 ^ 30) result.now }
    {
        let place = self.pair_place(sweep, link);
        self.outs.row(place)
    }

    /// The place of the departures of a link at a sweep among all rows of departures.
    fn pair_place(&self, sweep: u32, link: usize) -> usize
        requires sweep { sweep ≤ self.now.now.sweeps }
        requires link { link < length self.now.now.figures }
        ensures value { result ≡ pair_place self.now.now sweep link }
        ensures within { result < length self.now.now.outs }
    {
        sweep as usize * self.size.link_count + link
    }

    /// The arrivals of a link at the last sweep, before any cut, in millionths of a vehicle per step.
    pub fn arrivals(&self, link: usize) -> &[u64]
        requires { link < length self.now.now.figures }
        ensures value { result.now ≡ row self.now.now.arrivals link }
        ensures steps { length result.now ≡ self.now.now.step_count }
    {
        self.arrivals.row(link)
    }

    /// The GO of a link at the last sweep, in millionths of a vehicle per step.
    pub fn go(&self, link: usize) -> &[u64]
        requires { link < length self.now.now.figures }
        ensures value { result.now ≡ row self.now.now.go link }
        ensures steps { length result.now ≡ self.now.now.step_count }
    {
        self.go.row(link)
    }

    /// The queue at the end of each step of the last sweep, in millionths of a vehicle.
    pub fn queue(&self, link: usize) -> &[u64]
        requires { link < length self.now.now.figures }
        ensures value { result.now ≡ row self.now.now.queue link }
        ensures steps { length result.now ≡ self.now.now.step_count }
    {
        self.queue.row(link)
    }

    /// The figures of a link at the last sweep, in millionths as those of `transyt_delay`.
    pub fn figures(&self, link: usize) -> Figures
        requires { link < length self.now.now.figures }
        ensures value { result ≡ slice_index_or self.now.now.figures link no_figures }
        ensures small { AreSmall result }
    {
        self.figures.get(link)
    }

    /// The index of the network: the sum of its links' indexes.
    pub fn index(&self) -> u128
        ensures value { result ≡ index_in self.now.now }
        ensures kept { AreRows self.now.now }
    {
        self.index
    }

    /// How many steps, sweeps and links there are.
    pub fn size(&self) -> Size
        ensures step_count { result.step_count ≡ self.now.now.step_count }
        ensures sweeps { result.sweeps ≡ self.now.now.sweeps }
        ensures link_count { result.link_count ≡ length self.now.now.figures }
    {
        self.size
    }

    /// Whether a mark is open.
    pub fn is_marked(&self) -> bool
        ensures { result ≡ is_some self.now.marked }
    {
        self.is_open
    }

    /// Sets a mark: it stands for the rows now.
    pub fn begin(&mut self)
        ensures { self.new ≡ record self.old { marked = Some self.old.now } }
    {
        self.outs.begin();
        self.arrivals.begin();
        self.go.begin();
        self.queue.begin();
        self.figures.begin();
        self.mark_index = self.index;
        self.is_open = true;
    }

    /// The mark is gone.
    pub fn settle(&mut self)
        ensures { self.new ≡ unmarked self.old.now }
    {
        self.is_open = false;
    }

    /// The rows become those of the mark, and the mark is gone.
    pub fn restore(&mut self)
        requires { IsSome self.old.marked }
        ensures size { SameSize self.new.now self.old.now }
        ensures rows { self.old.marked ≡ Some self.new.now }
        ensures marked { self.new.marked ≡ None }
    {
        self.outs.restore();
        self.arrivals.restore();
        self.go.restore();
        self.queue.restore();
        self.figures.restore();
        self.index = self.mark_index;
        self.is_open = false;
    }

    /// The departures of a link at a sweep become these.
    pub fn put_out(&mut self, sweep: u32, link: usize, values: &[u64])
        requires sweep { sweep ≤ self.old.now.sweeps }
        requires link { link < length self.old.now.figures }
        requires steps { length values.now ≡ self.old.now.step_count }
        requires small { All (λ v. v < 2 ^ 30) values.now }
        ensures value { self.new ≡ record
            self.old { now = with_out self.old.now sweep link values.now } }
        ensures kept { AreRows self.old.now }
    {
        let place = self.pair_place(sweep, link);
        self.outs.put(place, values);
    }

    /// The departures of a link at a sweep become this value at each step.
    pub fn fill_out(&mut self, sweep: u32, link: usize, value: u64)
        requires sweep { sweep ≤ self.old.now.sweeps }
        requires link { link < length self.old.now.figures }
        requires small { value < 2 ^ 30 }
        ensures value { self.new ≡ record self.old {
          now = with_out self.old.now sweep link (uniform self.old.now.step_count value);
        } }
        ensures kept { AreRows self.old.now }
    {
        let place = self.pair_place(sweep, link);
        self.outs.fill(place, value);
    }

    /// The arrivals of a link at the last sweep, its queue and its figures become these.
    pub fn put_arrivals(&mut self, link: usize, arrivals: &[u64], queue: &[u64], figures: Figures)
        requires link { link < length self.old.now.figures }
        requires arrivals { length arrivals.now ≡ self.old.now.step_count }
        requires queue { length queue.now ≡ self.old.now.step_count }
        requires figures { AreSmall figures }
        ensures value { self.new ≡ record self.old {
          now = with_arrivals self.old.now link arrivals.now queue.now figures;
        } }
        ensures kept { AreRows self.old.now }
    {
        self.arrivals.put(link, arrivals);
        self.queue.put(link, queue);
        self.put_figures(link, figures);
    }

    /// The GO of a link at the last sweep becomes this.
    pub fn put_go(&mut self, link: usize, go: &[u64])
        requires link { link < length self.old.now.figures }
        requires steps { length go.now ≡ self.old.now.step_count }
        ensures value { self.new ≡ record self.old { now = with_go self.old.now link go.now } }
        ensures kept { AreRows self.old.now }
    {
        self.go.put(link, go);
    }

    /// The figures of a link become these; the index of the network stays the sum.
    pub fn put_figures(&mut self, link: usize, figures: Figures)
        requires link { link < length self.old.now.figures }
        requires figures { AreSmall figures }
        ensures { self.new ≡ record self.old { now = with_figures self.old.now link figures } }
    {
        let before = self.figures.get(link);
        self.index = self.index - before.index + figures.index;
        self.figures.put(link, figures);
    }

    /// A link at a sweep becomes that of other rows: its departures, and at the last sweep all of it.
    pub fn take_pair(&mut self, sweep: u32, link: usize, from: &Rows)
        requires sweep { sweep ≤ self.old.now.sweeps }
        requires link { link < length self.old.now.figures }
        requires size { SameSize self.old.now from.now.now }
        ensures value { self.new ≡ record
            self.old { now = placed self.old.now sweep link (pair_in from.now.now sweep link) } }
        ensures kept { AreRows self.old.now }
    {
        self.put_out(sweep, link, from.out(sweep, link));
        if sweep == self.size.sweeps {
            self.put_arrivals(
                link,
                from.arrivals(link),
                from.queue(link),
                from.figures(link),
            );
            self.put_go(link, from.go(link));
        }
    }
}

//! A table of rows of equal length, each in two versions, one after another in one piece of memory.

ghost use Rattle.std.specs.Prelude.{◌≡◌, ◌*◌, ◌<◌, length, replicate, slice_set, IfOk};
ghost use Rattle.transyt_profile.specs.Profile.{uniform};
ghost use Rattle.transyt_kept.specs.Rows.{row, empty_table};
ghost use Rattle.transyt_kept.specs.Versions.{both};

use crate::size::TableSize;
use crate::slots::Slots;
use std::alloc::{AllocError, Global};
use std::marker::Model;
use transyt_profile::fill_uniform;

/// Rows of values: each now, and at the mark.
#[derive(Drop)]
pub(crate) struct Table {
    size: TableSize,
    slots: Slots,
    // the two versions of each row, the first before the second
    values: Vec<u64>,
}

impl Model for Table {
    ghost use Rattle.std.specs.Prelude.{ℕ, ◌*◌, List};
    ghost use Rattle.transyt_kept.specs.Versions.{VersionsValue, versions_of, cut_rows, AreRowVersions};

    ghost Value = { VersionsValue (List ℕ) };

    ghost view = { λ t. versions_of t.slots (cut_rows (2 * t.size.row_count) t.size.step_count t.values.items) };

    ghost invariant = { λ t. AreRowVersions t.size.row_count t.size.step_count t.slots t.values.items };
}

/// Three tables of a size, all 0. All their memory is taken here.
pub(crate) fn three_tables(
    alloc: Global,
    size: TableSize,
) -> Result<(Table, Table, Table), AllocError>
    ensures one { IfOk result (λ tables. tables.0
        ≡ both (empty_table size.row_count size.step_count)) }
    ensures two { IfOk result (λ tables. tables.1
        ≡ both (empty_table size.row_count size.step_count)) }
    ensures three { IfOk result (λ tables. tables.2
        ≡ both (empty_table size.row_count size.step_count)) }
{
    let one = Table::empty(alloc, size)?;
    let Ok(two) = Table::empty(alloc, size) else {
        drop(one);
        return Err(AllocError);
    };
    let Ok(three) = Table::empty(alloc, size) else {
        drop(one);
        drop(two);
        return Err(AllocError);
    };
    Ok((one, two, three))
}

/// The values of both versions of all rows of a size, all 0. They are filled row by row, which takes fewer instructions than
/// a whole table at once.
fn empty_rows(alloc: Global, size: TableSize) -> Result<Vec<u64>, AllocError>
    ensures { IfOk result (λ values. values.items
        ≡ replicate (2 * size.row_count * size.step_count) 0) }
{
    let mut values = Vec::with_capacity(alloc, size.value_count())?;
    for row in 0..2 * size.row_count as usize {
        if values
            .resize((row + 1) * size.step_count as usize, 0)
            .is_err()
        {
            unreachable!();
        }
    }
    Ok(values)
}

impl Table {
    /// A table of a size, all 0, now and at the mark. All its memory is taken here.
    pub(crate) fn empty(alloc: Global, size: TableSize) -> Result<Table, AllocError>
        ensures { IfOk result (λ table. table
            ≡ both (empty_table size.row_count size.step_count)) }
    {
        let slots = Slots::open(alloc, size.row_count)?;
        let Ok(values) = empty_rows(alloc, size) else {
            drop(slots);
            return Err(AllocError);
        };
        Ok(Table {
            size,
            slots,
            values,
        })
    }

    /// The row at a place now.
    pub(crate) fn row(&self, place: usize) -> &[u64]
        requires { place < length self.now.now }
        ensures { result.now ≡ row self.now.now place }
    {
        let from = self.slots.current(place) * self.size.step_count as usize;
        &self.values[from..from + self.size.step_count as usize]
    }

    /// Puts a row in its place.
    pub(crate) fn put(&mut self, place: usize, values: &[u64])
        requires place { place < length self.old.now }
        requires steps { length values.now ≡ length (row self.old.now place) }
        ensures { self.new ≡ record
            self.old { now = slice_set self.old.now place values.now } }
    {
        let from = self.slots.other(place) * self.size.step_count as usize;
        self.values[from..from + self.size.step_count as usize].copy_from_slice(values);
    }

    /// Puts a row of one value at each step in its place.
    pub(crate) fn fill(&mut self, place: usize, value: u64)
        requires { place < length self.old.now }
        ensures { self.new ≡ record self.old {
          now = slice_set self.old.now place (uniform (length (row self.old.now place)) value);
        } }
    {
        let from = self.slots.other(place) * self.size.step_count as usize;
        fill_uniform(
            value,
            &mut self.values[from..from + self.size.step_count as usize],
        );
    }

    /// The mark stands for the rows now.
    pub(crate) fn begin(&mut self)
        ensures { self.new ≡ record self.old { mark = self.old.now } }
    {
        self.slots.begin();
    }

    /// The rows become those of the mark.
    pub(crate) fn restore(&mut self)
        ensures { self.new ≡ record self.old { now = self.old.mark } }
    {
        self.slots.restore();
    }
}

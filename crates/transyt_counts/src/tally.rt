//! The sums of the rows, key by key.

ghost use Rattle.std.specs.Prelude.{◌≡◌, OnOk, IfSome};
ghost use Rattle.indexmap.specs.IndexMap.{get};
ghost use Rattle.transyt_counts.specs.Rows.{same_key};
ghost use Rattle.transyt_counts.specs.Counts.{more_totals, with_count, HasRoom};

use crate::key::Key;
use crate::row::Count;
use indexmap::IndexMap;
use std::alloc::AllocFailed;

/// The sum of a key's rows, and the last of them.
#[derive(Clone, Copy)]
pub struct Totals {
    pub vehicles: u64,
    pub minutes: u64,
    pub last: u32,
}

/// The totals of a key with one row more.
fn more_totals(count: Count, before: Option<Totals>) -> Totals
    requires { IfSome before HasRoom }
    ensures { result ≡ more_totals count before }
{
    match before {
        None => Totals {
            vehicles: u64::from(count.vehicles),
            minutes: u64::from(count.minutes),
            last: count.row,
        },
        Some(totals) => Totals {
            vehicles: totals.vehicles + u64::from(count.vehicles),
            minutes: totals.minutes + u64::from(count.minutes),
            last: count.row,
        },
    }
}

/// Adds a row to the totals of its key.
pub fn add(
    tally: &mut IndexMap<Key, Totals>,
    count: Count,
) -> Result<(), AllocFailed<(Key, Totals)>>
    requires { IfSome (get same_key tally.old count.key) HasRoom }
    ensures { OnOk result (tally.new.entries ≡ with_count tally.old.entries count) }
{
    let before = tally.get(&count.key).copied();
    tally.insert(count.key, more_totals(count, before))?;
    Ok(())
}

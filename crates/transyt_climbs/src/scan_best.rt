//! The best row of a table.

ghost use Rattle.std.specs.Prelude.{◌≡◌, ◌<◌, length, slice_index_or};
ghost use Rattle.transyt_climbs.specs.Scan.{IsLeast, best, no_row};

use crate::scan_row::ScanRow;

/// The place of the row with the least index at its end, the first among equals, from 0.
pub fn least(rows: &[ScanRow]) -> usize
    requires some { 0 < length rows.now }
    ensures least { IsLeast rows.now result }
    ensures best { slice_index_or rows.now result no_row ≡ best rows.now }
{
    let mut least = 0;
    for place in 1..rows.len() {
        if rows[place].to < rows[least].to {
            least = place;
        }
    }
    least
}

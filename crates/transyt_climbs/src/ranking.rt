//! The best row of a table.

ghost use Rattle.std.specs.Prelude.{◌≡◌, length};
ghost use Rattle.transyt_climbs.specs.Climbs.{AreBest, best, better, first_lower};

use crate::row::NetworkRow;

/// The best row of a table.
#[derive(Clone, Copy, Drop)]
pub struct BestRow {
    /// Its place, from 0.
    pub place: usize,
    /// Its number.
    pub number: u32,
    /// The index at the end of its climb.
    pub to: u128,
}

/// The better of the best so far and a later row: the later only where its index at the end is lower.
fn first_lower(best: Option<BestRow>, later: BestRow) -> BestRow
    ensures { result ≡ first_lower best later }
{
    match best {
        Some(best) if best.to <= later.to => best,
        _ => later,
    }
}

/// The best so far, with the row at a place.
fn better(best: Option<BestRow>, place: usize, row: NetworkRow) -> Option<BestRow>
    ensures { result ≡ better best place row }
{
    let NetworkRow::Climbed(climbed) = row else {
        return best;
    };
    let later = BestRow {
        place,
        number: climbed.number,
        to: climbed.to,
    };
    Some(first_lower(best, later))
}

/// The climbed row with the least index at its end, the first among equals; none where no row is climbed.
pub fn best(rows: &[NetworkRow]) -> Option<BestRow>
    ensures value { result ≡ best rows.now }
    ensures least { AreBest rows.now (length rows.now) result }
{
    let mut best = None;
    for place in 0..rows.len() {
        best = better(best, place, rows[place]);
    }
    best
}

//! Worked climbs over cycle times, computed from the definitions.

ghost use Rattle.std.specs.Prelude.{◌≡◌, [], ◌∷◌, map, true, false, None, Some};
ghost use Rattle.transyt_parts.specs.Made.{new_plan};
ghost use Rattle.transyt_climb.specs.WorkedTurns.{idle};
ghost use Rattle.transyt_climbs.specs.Scan.{row_at, scan_of, table, IsLeast, best};
ghost use Rattle.transyt_climbs.specs.WorkedScan.{from_44, idle_with, in_range, junction_at_61, out_of_range, stayed};
ghost use Rattle.transyt_climbs.specs.WorkedScan.{climbed_at, three_rows};

/// The questions that may be asked (each number at its limits, and one past them), and rows where no move lowers the
/// index.
pub fn worked_scan()
    ensures within { map (λ a. scan_of a.workers a.times.low a.times.high a.times.by) in_range
        ≡ map Some in_range }
    ensures beyond { map (λ a. scan_of a.workers a.times.low a.times.high a.times.by) out_of_range
        ≡ map (λ _. None) out_of_range }
    ensures rows { table idle from_44 ≡ stayed 44 true 6 ∷ stayed 51 true 6 ∷ [] }
    ensures budget { row_at (idle_with (Some (new_plan 4 (2 ∷ [])))) 44 ≡ stayed 44 false 4 }
    ensures unplanned { row_at (idle_with None) 44 ≡ stayed 44 true 0 }
{}

/// The row of a junction with a link at another cycle time than its own: its third move lowers the index, by what it is
/// at that cycle time.
pub fn worked_scan_row()
    ensures { row_at junction_at_61 90 ≡ climbed_at 90 13935199 1 false 3 8632377 }
{}

/// The best of the worked rows stands at place 1; the row at place 2 is as good, and comes after it.
#[tactic(auto, using(crate::proofs::WorkedLeast::first_is_least, crate::proofs::WorkedLeast::later_is_not))]
pub fn worked_least()
    ensures first { IsLeast three_rows 1 }
    ensures later { IsLeast three_rows 2 → ⊥ }
    ensures best { best three_rows ≡ climbed_at 58 8 2 false 20 3 }
{}

//! Worked cycle times, tables and best rows, computed from the definitions.

ghost use Rattle.std.specs.Prelude.{◌≡◌, [], ◌∷◌, map, true, false, None, Some};
ghost use Rattle.transyt_climb.specs.WorkedTurns.{idle};
ghost use Rattle.transyt_climbs.specs.declared.networks.NetworkAt.TheVariants as plan;
ghost use Rattle.transyt_climbs.specs.declared.row.NetworkRow.TheVariants as row;
ghost use Rattle.transyt_climbs.specs.Times.{times_of, times_within};
ghost use Rattle.transyt_climbs.specs.Climbs.{climbed_row, end_of, row_of, table, best};
ghost use Rattle.transyt_climbs.specs.WorkedClimbs.{climbed_at, five_rows, four_networks, in_range, junction, listed, no_climbs};
ghost use Rattle.transyt_climbs.specs.WorkedClimbs.{out_of_range, stayed};

/// Worked cycle times: by a step that misses the highest and by one that meets it; and what may be asked for, each
/// number at its limits, and one past them.
pub fn worked_times()
    ensures missed { listed (times_of 60 120 17) ≡ 60 ∷ 77 ∷ 94 ∷ 111 ∷ [] }
    ensures met { listed (times_of 44 51 7) ≡ 44 ∷ 51 ∷ [] }
    ensures within { map (λ t. times_within t.low t.high t.by) in_range ≡ map Some in_range }
    ensures beyond { map (λ t. times_within t.low t.high t.by) out_of_range
        ≡ map (λ _. None) out_of_range }
{}

/// A table with rows of each kind, over a network on which no move lowers the index; without a climb plan nothing is
/// looked at. On a junction with a link the third move lowers the index, and the network at the end has that move made.
pub fn worked_rows()
    ensures table { table four_networks idle
        ≡ row.NoPlan 50 ∷ row.Climbed (stayed 58 true 6) ∷ row.Barred 66 7
        ∷ row.Climbed (stayed 74 false 4) ∷ [] }
    ensures unplanned { row_of 17 (plan.Plan (record idle { plan = None }))
        ≡ row.Climbed (stayed 17 true 0) }
    ensures row { climbed_row 17 (junction 16) ≡ climbed_at 17 13935199 1 false 3 8632377 }
    ensures end { end_of (plan.Plan (junction 16)) ≡ Some (junction 0) }
    ensures no_end { end_of (plan.Barred 7) ≡ None }
{}

/// Of two rows with the least index at the end the first is the best; rows of which none is climbed have none.
pub fn worked_best()
    ensures first { best five_rows ≡ Some (record { place = 2; number = 58; to = 3 }) }
    ensures none { best no_climbs ≡ None }
{}

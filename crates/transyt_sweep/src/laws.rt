//! Laws about the definitions.

ghost use Rattle.std.specs.Prelude.{◌≡◌, ℕ, ◌^◌, ◌<◌, ◌≤◌, [], ◌∷◌, Some, true, false, nat_eq, map, replicate};
ghost use Rattle.std.specs.Prelude.{length, All};
ghost use Rattle.std.specs.List.{range_with_len};
ghost use Rattle.transyt_net.specs.Parts.{Network};
ghost use Rattle.transyt_net.specs.Valid.{IsValid};
ghost use Rattle.transyt_moves.specs.Moves.{move_count};
ghost use Rattle.transyt_stage.specs.ThreeJunctions.{three_junctions};
ghost use Rattle.transyt_kept.specs.WorkedRows.{rows};
ghost use Rattle.transyt_sweep.specs.Sweeps.{out_of, start, cell_at, evaluated, index};
ghost use Rattle.transyt_sweep.specs.Reading.{read_in, with_weights};
ghost use Rattle.transyt_sweep.specs.Climb.{tried_at, is_below, lowers, least, first, ended, after_search, climb};
ghost use Rattle.transyt_sweep.specs.WorkedLinks.{arrivals_of_three, gos_of_three, queues_of_three, outs_of_three};
ghost use Rattle.transyt_sweep.specs.WorkedLinks.{figures_of_three};
ghost use Rattle.transyt_sweep.specs.WorkedSweeps.{ring, outs_of_ring, fed_by_itself, arrivals_of_itself};
ghost use Rattle.transyt_sweep.specs.WorkedSweeps.{gives_way_to_later, no_links};
ghost use Rattle.transyt_sweep.specs.WorkedReading.{weighed};
ghost use Rattle.transyt_sweep.specs.WorkedClimbs.{idle, planless, tried_in_idle, limits, leasts, stayed, stepped_back};

/// The rule of the sweeps: before the first each link lets its total flow go, and at each sweep a link is worked out
/// of what it reads, at this sweep of the links before it and at the one before of all others.
#[tactic(auto, using(crate::proofs::SweepLaws::out_of_start, crate::proofs::SweepLaws::out_of_pair))]
pub fn rule_of_sweeps()
    ensures first { (net : Network) (l : ℕ) → out_of net 0 l ≡ start net l }
    ensures pair { (net : Network) (s l : ℕ) → 1 ≤ s → out_of net s l ≡ (cell_at net s l).out }
{}

/// The evaluation of a link is the link worked out at the last sweep.
#[tactic(auto, using(crate::proofs::SweepLaws::evaluated_is))]
pub fn rule_of_evaluation()
    ensures { (net : Network) (l : ℕ) → evaluated net l ≡ cell_at net net.frame.sweeps l }
{}

/// In a valid network the departures of a link are below 2^30 in each step, at each sweep.
#[tactic(auto, using(crate::proofs::SmallLaws::out_small))]
pub fn rule_of_departures()
    ensures { (net : Network) → IsValid net → (l : ℕ) → l < length net.links → (s : ℕ)
        → All (λ v. v < 2 ^ 30) (out_of net s l) }
{}

/// The rule of the climb: it searches the list of moves from a place on, and goes on after the step that it takes.
#[tactic(auto, using(crate::proofs::ClimbLaws::climb_is))]
pub fn rule_of_climbs()
    ensures { (net : Network) (place left : ℕ)
        → climb net place left ≡ after_search climb net place (move_count net) left
        (first net place) }
{}

/// The links of the three junctions come out as they are written beside the definitions.
pub fn worked_links()
    ensures arrivals { map (λ l. (evaluated three_junctions l).arrivals) (range_with_len 0 8)
        ≡ arrivals_of_three }
    ensures go { map (λ l. (evaluated three_junctions l).go) (range_with_len 0 8) ≡ gos_of_three }
    ensures queue { map (λ l. (evaluated three_junctions l).queue) (range_with_len 0 8)
        ≡ queues_of_three }
    ensures out { map (λ l. (evaluated three_junctions l).out) (range_with_len 0 8)
        ≡ outs_of_three }
{}

/// So do their figures, and their index is the sum.
#[tactic(auto, using(crate::proofs::WorkedFigures::figures_come_out, crate::proofs::WorkedFigures::index_comes_out))]
pub fn worked_figures()
    ensures links { map (λ l. (evaluated three_junctions l).figures) (range_with_len 0 8)
        ≡ figures_of_three }
    ensures index { index three_junctions ≡ 556223009 }
{}

/// So do a ring, sweep by sweep, a link that feeds itself, a link that gives way to a later one, and no link at all.
pub fn worked_sweeps()
    ensures ring { map (λ s. map (out_of ring s) (range_with_len 0 3)) (range_with_len 0 4)
        ≡ outs_of_ring }
    ensures itself { map (λ s. (cell_at fed_by_itself s 0).arrivals) (range_with_len 1 2)
        ≡ arrivals_of_itself }
    ensures later { (evaluated gives_way_to_later 0).go ≡ replicate 10 2400000 }
    ensures none { index no_links ≡ 0 }
{}

/// So do what a link reads of rows, and a link weighed anew.
pub fn worked_reading()
    ensures sweeps { map (read_in rows 1 1) (range_with_len 0 2)
        ≡ (11 ∷ 12 ∷ 13 ∷ []) ∷ (4 ∷ 5 ∷ 6 ∷ []) ∷ [] }
    ensures weights { with_weights rows three_junctions 1 ≡ record rows { figures = weighed } }
{}

/// So do tries of moves, searches and climbs. The first move on the three junctions lowers their index.
#[tactic(auto, using(crate::proofs::WorkedMove::tried_first, crate::proofs::WorkedMove::lowers_first, crate::proofs::WorkedMove::first_from_last))]
pub fn worked_climbs()
    ensures lowered { tried_at three_junctions 0 ≡ Some 554272112 }
    ensures lowers { lowers three_junctions 0 ≡ true }
    ensures tried { map (tried_at idle) (range_with_len 0 6) ≡ tried_in_idle }
    ensures limits { map (λ row. is_below row.0 row.1) limits ≡ map (λ row. row.2) limits }
    ensures least { map (λ row. least (nat_eq row.0) row.1) leasts ≡ map (λ row. row.2) leasts }
    ensures first { first three_junctions 71 ≡ Some 1 }
    ensures local { climb idle 0 6 ≡ stayed true idle (0 ∷ 1 ∷ 2 ∷ 3 ∷ 4 ∷ 5 ∷ []) }
    ensures budget { climb idle 4 3 ≡ stayed false idle (4 ∷ 5 ∷ 0 ∷ []) }
    ensures no_move { climb planless 0 0 ≡ stayed true planless [] }
    ensures step { after_search (ended true) idle 5 6 9 (Some 2) ≡ stepped_back }
    ensures no_step { after_search (ended true) idle 4 6 3 (Some 3)
        ≡ stayed false idle (4 ∷ 5 ∷ 0 ∷ []) }
{}

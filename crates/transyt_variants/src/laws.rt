//! Laws about the definitions.
ghost use Rattle.std.specs.Prelude.{◌≡◌, ◌≤◌, ℕ, ◌∷◌, [], map};
ghost use Rattle.transyt_net.specs.Parts.{Network};
ghost use Rattle.transyt_net.specs.Valid.{IsValid};
ghost use Rattle.transyt_equisat.specs.WorkedBalances.{even_town, worked_town};
ghost use Rattle.transyt_variants.specs.Starts.{start_at};
ghost use Rattle.transyt_variants.specs.Cycles.{at_cycle, bare_net};
ghost use Rattle.transyt_variants.specs.Kept.{KeepsAllButOffsets, KeepsSecondsAt};
ghost use Rattle.transyt_variants.specs.WorkedVariants.{worked_starts, bare_at_135, town_at_135, town_at_55, unplanned};
ghost use Rattle.transyt_variants.specs.WorkedVariants.{bounds, even_town_at_140, town_at_90};

/// Each start of a valid network is a valid network that differs from it in its offsets alone. The network of a cycle
/// time, where there is one, is a valid network whose steps are as many seconds long.
#[tactic(auto, using(crate::proofs::StartLaws::start_kept, crate::proofs::CycleLaws::cycle_kept))]
pub fn variants_keep()
    ensures starts { (net : Network) (seed place : ℕ) → IsValid net
        → KeepsAllButOffsets net (start_at net seed place) }
    ensures cycles { (net : Network) (cycle : ℕ) → IsValid net → 30 ≤ cycle → cycle ≤ 240
        → KeepsSecondsAt net (at_cycle net cycle) }
{}

/// The worked starts come out as they are written beside the definition: the draws go on from start to start.
#[tactic(auto, using(crate::proofs::Worked::starts_are))]
pub fn worked_starts()
    ensures { map (start_at worked_town 7) (0 ∷ 1 ∷ 2 ∷ 3 ∷ 4 ∷ []) ≡ worked_starts }
{}

/// The worked cycle times come out as they are written beside the definitions.
#[tactic(auto, using(crate::proofs::Worked::plan_at_135, crate::proofs::Worked::plan_at_55, crate::proofs::Worked::plan_at_90, crate::proofs::Worked::even_plan, crate::proofs::Worked::unplanned_are, crate::proofs::Worked::bounds_are))]
pub fn worked_cycles()
    ensures bare { (bare_net worked_town 135).nodes ≡ bare_at_135 }
    ensures plan { at_cycle worked_town 135 ≡ town_at_135 }
    ensures full { at_cycle worked_town 55 ≡ town_at_55 }
    ensures own { at_cycle worked_town 90 ≡ town_at_90 }
    ensures even { at_cycle even_town 140 ≡ even_town_at_140 }
    ensures unplanned { map (λ c. at_cycle c.net c.cycle) unplanned
        ≡ map (λ c. c.comes_to) unplanned }
    ensures bounds { map (λ c. at_cycle c.net c.cycle) bounds ≡ map (λ c. c.comes_to) bounds }
{}

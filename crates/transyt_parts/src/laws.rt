//! Worked ranges and stage plans.
ghost use Rattle.std.specs.Prelude.{◌≡◌, ◌≢◌, ◌↔◌, ◌<◌, ◌≤◌, ◌-◌, ℕ, [], ◌∷◌, true, false, map, replicate, List, length, sum, All, None, Some, IsTrue};
ghost use Rattle.transyt_parts.specs.Ranges.{within, IsWithin, is_in, IsIn, most_flow, cruise_range, number_range, budget_range, most_stages, most_sizes};
ghost use Rattle.transyt_parts.specs.WorkedPlans as plan;
ghost use Rattle.transyt_parts.specs.WorkedParts as part;
ghost use Rattle.transyt_parts.specs.Valid.{is_frame, node_in_range, stage_in_range, link_in_range, feed_in_range, IsFrame, IsStage, IsNode, IsPlan, HasRanges};
ghost use Rattle.transyt_parts.specs.Plan.{plan_fault, stage_lengths, IsPlanned, LacksGreen};
ghost use Rattle.transyt_parts.specs.Parts.{NodeValue, LinkValue, PlanValue};
ghost use Rattle.transyt_parts.specs.declared.frame.Frame.{Frame};
ghost use Rattle.transyt_parts.specs.declared.node.Stage.{Stage};
ghost use Rattle.transyt_parts.specs.declared.link.Feed.{Feed};
ghost use Rattle.transyt_parts.specs.declared.stage_plan.PlanFault.TheVariants.{FewStages, StageOrder, LeastGreen};

/// Each test of ranges says what the part keeps to. A node and a climb plan keep to their ranges
/// exactly where the tests of their numbers pass and their lists are as long as they may be.
pub fn tests_tell()
    ensures range { (low high n : ℕ) → IsTrue (within low high n) ↔ IsWithin low high n }
    ensures frame { (f : Frame) → IsTrue (is_frame f) ↔ IsFrame f }
    ensures node { (steps number offset : ℕ) → IsTrue (node_in_range steps number offset)
        ↔ IsIn number_range number × (offset < steps) }
    ensures stage { (steps : ℕ) (s : Stage) → IsTrue (stage_in_range steps s) ↔ IsStage steps s }
    ensures link { (steps : ℕ) (l : LinkValue) → IsTrue (link_in_range steps l)
        ↔ HasRanges steps l }
    ensures feed { (f : Feed) → IsTrue (feed_in_range f)
        ↔ (f.flow ≤ most_flow) × IsIn cruise_range f.cruise }
    ensures nodes { (steps : ℕ) (n : NodeValue) → IsNode steps n
        ↔ IsTrue (node_in_range steps n.number n.offset)
        × (length n.stages ≤ most_stages) × All (IsStage steps) n.stages }
    ensures plans { (steps : ℕ) (p : PlanValue) → IsPlan steps p
        ↔ IsTrue (is_in budget_range p.budget)
        × IsWithin 1 most_sizes (length p.sizes) × All (IsWithin 1 (steps - 1)) p.sizes }
{}

/// A plan has no fault exactly where it is as it must be, and else the first of the three that
/// holds, in the order of `PlanFault`.
pub fn plans_are_judged()
    ensures none { (steps : ℕ) (stages : List Stage) → plan_fault steps stages ≡ None
        ↔ IsPlanned steps stages }
    ensures few { (steps : ℕ) (stages : List Stage) → plan_fault steps stages ≡ Some FewStages
        ↔ length stages < 2 }
    ensures order { (steps : ℕ) (stages : List Stage) → plan_fault steps stages ≡ Some StageOrder
        ↔ (2 ≤ length stages) × (sum (stage_lengths steps stages) ≢ steps) }
    ensures greens { (steps : ℕ) (stages : List Stage) → plan_fault steps stages ≡ Some LeastGreen
        ↔ (2 ≤ length stages) × (sum (stage_lengths steps stages) ≡ steps)
        × LacksGreen steps stages }
{}

/// The worked values come out as they are written beside the definitions.
#[tactic(auto, using(crate::proofs::Worked::plans, crate::proofs::Worked::lengths, crate::proofs::Worked::first_faults, crate::proofs::Worked::stages_found, crate::proofs::Worked::ends, crate::proofs::Worked::limits, crate::proofs::Worked::links, crate::proofs::Worked::nodes, crate::proofs::Worked::climb_plans, crate::proofs::Worked::counts, crate::proofs::Worked::tests))]
pub fn worked_parts()
    ensures plans { map (λ r. r.0) plan.faults ≡ map (λ r. r.1) plan.faults }
    ensures lengths { map (λ r. r.0) plan.lengths ≡ map (λ r. r.1) plan.lengths }
    ensures first_faults { map (λ r. r.0) plan.first_faults ≡ map (λ r. r.1) plan.first_faults }
    ensures stages_found { map (λ r. r.0) plan.stages_found ≡ map (λ r. r.1) plan.stages_found }
    ensures ends { part.ends ≡ replicate 9 (false ∷ true ∷ true ∷ false ∷ []) }
    ensures limits { part.limits ≡ 9999 ∷ 100 ∷ 9999 ∷ 999 ∷ 400 ∷ 8 ∷ 16 ∷ [] }
    ensures links { map (λ r. r.0) part.links ≡ map (λ r. r.1) part.links }
    ensures nodes { map (λ r. r.0) part.nodes ≡ map (λ r. r.1) part.nodes }
    ensures climb_plans { map (λ r. r.0) part.plans ≡ map (λ r. r.1) part.plans }
    ensures counts { part.counts ≡ 539 ∷ 4 ∷ 21 ∷ 5 ∷ 2 ∷ [] }
    ensures tests { part.tests ≡ true ∷ false ∷ false ∷ true ∷ true ∷ false ∷ false ∷ [] }
{}

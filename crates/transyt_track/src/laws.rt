//! Laws about the definitions.

ghost use Rattle.std.specs.Prelude.{◌≡◌, ◌↔◌, ℕ, [], ◌∷◌, false, map, IsTrue};
ghost use Rattle.transyt_net.specs.Parts.{Network};
ghost use Rattle.transyt_sweep.specs.Sweeps.{out_of};
ghost use Rattle.transyt_track.specs.Due.{differs, due, is_due, cert_work, edit_work, work_of};
ghost use Rattle.transyt_track.specs.Own.{Own, own, same_own};
ghost use Rattle.transyt_track.specs.WorkedWork.{due_of_three, fed_by_two, junctions, loop_of_three, own_three};
ghost use Rattle.transyt_track.specs.WorkedWork.{worked_edits, worked_looks};

/// The tests by which pairs are counted: own data pass exactly where they are equal, and departures differ unless they
/// are equal.
#[tactic(auto, using(crate::proofs::RuleLaws::own_decides, crate::proofs::RuleLaws::differs_decides))]
pub fn rule_of_due()
    ensures own { (x y : Own) → IsTrue (same_own x y) ↔ x ≡ y }
    ensures departures { (a b : Network) (s j : ℕ) → (differs a b s j ≡ false)
        ↔ out_of a s j ≡ out_of b s j }
{}

/// The worked networks have the work that is written there: edits of each kind, places that a climb looks at, the
/// certificate of all moves, and an edit that goes round a loop until a link's departures stay the same. A link is due
/// for one of two that it reads.
#[tactic(auto, using(crate::proofs::WorkedLaws::edits, crate::proofs::WorkedLaws::looks, crate::proofs::WorkedLaws::certificate, crate::proofs::WorkedLaws::due_by_one, crate::proofs::WorkedLaws::loop_work))]
pub fn worked_work()
    ensures edits { map (λ row. edit_work junctions row.0) worked_edits
        ≡ map (λ row. row.1) worked_edits }
    ensures looks { work_of worked_looks ≡ 16 }
    ensures certificate { cert_work junctions 12 ≡ 66 }
    ensures by_one { map (λ row. is_due (fed_by_two 1800) (fed_by_two 300) 1 row.0) due_of_three
        ≡ map (λ row. row.1) due_of_three }
    ensures loop_work { due (loop_of_three 360) (loop_of_three 3420) ≡ 7 }
{}

/// The own data of worked links.
pub fn worked_own()
    ensures { map (own junctions) (0 ∷ 1 ∷ 2 ∷ []) ≡ own_three }
{}

//! Laws about the definitions.
ghost use Rattle.std.specs.Prelude.{◌≡◌, ◌∷◌, [], ◌++◌, codes};
ghost use Rattle.transyt_io.specs.Forms.{filled, form_line, values_line};

/// Lines that were worked out by hand: numbers in shortest text in the order of the `#`, a line end, and values after
/// one blank each. Numbers that are too few leave their `#` out, and those that are too many are not written.
#[tactic(auto, using(crate::proofs::WorkedForms::step_line, crate::proofs::WorkedForms::queue_line, crate::proofs::WorkedForms::one_number_short, crate::proofs::WorkedForms::one_number_over))]
pub fn worked_forms()
    ensures step { form_line (codes "TOOK # OFFSET # # INDEX #") (3 ∷ 21 ∷ 0 ∷ 1948618 ∷ [])
        ≡ codes "TOOK 3 OFFSET 21 0 INDEX 1948618" ++ 10 ∷ [] }
    ensures queue { values_line (codes "QUEUE #") (300 ∷ [])
        (214786 ∷ 0 ∷ 18446744073709551615 ∷ [])
        ≡ codes "QUEUE 300 214786 0 18446744073709551615" ++ 10 ∷ [] }
    ensures few { filled (codes "NODE # OFFSET #") (7 ∷ []) ≡ codes "NODE 7 OFFSET " }
    ensures many { filled (codes "NODE #") (7 ∷ 17 ∷ []) ≡ codes "NODE 7" }
{}

//! Laws about the definitions.

ghost use Rattle.std.specs.Prelude.{◌≡◌, ℕ, ◌<◌, List, [], ◌∷◌, ◌++◌, ◌↔◌, None, true, false, is_some, codes, map};
ghost use Rattle.transyt_syntax.specs.declared.code.Code.{Code};
ghost use Rattle.transyt_net.specs.Parts.{Network};
ghost use Rattle.transyt_moves.specs.Moves.{move_count};
ghost use Rattle.transyt_sweep.specs.Sweeps.{index};
ghost use Rattle.transyt_sweep.specs.Climb.{lowers};
ghost use Rattle.transyt_audit.specs.Certificate.{lines_text, cert_text};
ghost use Rattle.transyt_audit.specs.declared.verdict.Verdict.TheVariants.{Yes, No};
ghost use Rattle.transyt_audit.specs.Verdict.{verdict, IsCertified, agrees};
ghost use Rattle.transyt_audit.specs.WorkedVerdicts.{agreements, bare, other, bare_lines, other_moves, note};
ghost use Rattle.transyt_audit.specs.WorkedVerdicts.{first_line, spaced_line, changed_line};

/// When the answer is Yes: there is a climb plan, the given lines are the certificate's, word for word, and no listed
/// move that is allowed lowers the index.
#[tactic(auto, using(crate::proofs::YesLaws::yes_certifies, crate::proofs::YesLaws::certified_yes))]
pub fn rule_of_yes()
    ensures { (net : Network) (table : List ℕ) (line places x : ℕ)
        → (verdict net table line ≡ Yes places x) ↔ IsCertified net table line places x }
{}

/// With a climb plan the verdict on the certificate's own text is Yes exactly where no listed move that is allowed
/// lowers the index.
#[tactic(auto, using(crate::proofs::OwnText::own_yes, crate::proofs::OwnText::own_local))]
pub fn rule_of_own_text()
    ensures { (net : Network) (line : ℕ) → is_some net.plan ≡ true
        → (verdict net (cert_text net) line ≡ Yes (move_count net) (index net))
        ↔ ((place : ℕ) → place < move_count net → lowers net place ≡ false) }
{}

/// The verdicts on certificates that were worked out apart; END stands on line 8. Lines agree with a true one as it is
/// written beside the definitions.
pub fn worked_verdicts()
    ensures skipped { verdict bare (lines_text (note ∷ [] ∷ spaced_line ∷ bare_lines)) 8 ≡ Yes 6 0 }
    ensures wrong { verdict bare (lines_text (note ∷ [] ∷ changed_line ∷ bare_lines)) 8
        ≡ No 11 Code.OtherLine }
    ensures surplus { verdict bare (lines_text (first_line ∷ bare_lines ++ first_line ∷ [])) 8
        ≡ No 16 Code.OtherLine }
    ensures missing { verdict bare (lines_text (first_line ∷ note ∷ [])) 8
        ≡ No 11 Code.OtherLine }
    ensures no_plan { verdict (record bare { plan = None }) [] 8 ≡ No 8 Code.NoPlan }
    ensures lower { verdict other
        (lines_text (note ∷ other_moves ++ codes "CERT 6 INDEX 10773335" ∷ [])) 8
        ≡ No 13 Code.LowerIndex }
    ensures wrong_first { verdict other
        (lines_text (other_moves ++ codes "CERT 6 INDEX 10773336" ∷ [])) 8
        ≡ No 15 Code.OtherLine }
    ensures missing_first { verdict other (lines_text (other_moves ++ note ∷ [])) 8
        ≡ No 16 Code.OtherLine }
    ensures agreements { map (λ row. agrees row.0 (codes "CERT 6")) agreements
        ≡ map (λ row. row.1) agreements }
{}

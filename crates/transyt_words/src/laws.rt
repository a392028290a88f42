//! Laws about the definitions: worked answers and lines, computed from them.

ghost use Rattle.std.specs.Prelude.{◌≡◌, ℕ, ◌+◌, ◌*◌, ◌++◌, ◌∷◌, [], codes, length, map, None, Some, true};
ghost use Rattle.transyt_syntax.specs.declared.code.Code.{Code};
ghost use Rattle.transyt_net.specs.WorkedNets.{town};
ghost use Rattle.transyt_outcome.specs.Outcome.{StatusSaysOfText};
ghost use Rattle.transyt_outcome.specs.WorkedOutcomes.{Each};
ghost use Rattle.transyt_outcome.specs.declared.status.Status.{Status};
ghost use Rattle.transyt_equisat.specs.WorkedBalances.{worked_town};
ghost use Rattle.transyt_audit.specs.declared.verdict.Verdict.{Verdict};
ghost use Rattle.transyt_climb.specs.WorkedTurns.{idle};
ghost use Rattle.transyt_climbs.specs.Climbs.{table};
ghost use Rattle.transyt_climbs.specs.Times.{times_of};
ghost use Rattle.transyt_net.specs.Parts.{Network};
ghost use Rattle.transyt_climbs.specs.WorkedClimbs.{junction};
ghost use Rattle.transyt_climbs.specs.WorkedScan.{from_44, three_rows};
ghost use Rattle.transyt_words.specs.Whole.{answer_of_cut, most_of_cut, IsSilent, StepsWithin, Told};
ghost use Rattle.transyt_words.specs.Answer.{answer_text, done, of_whole, refusal, with_deck, line_of, lines_text};
ghost use Rattle.transyt_words.specs.Answer.{refused_card};
ghost use Rattle.transyt_words.specs.Plans.{starts_of, cycles, plans_answer, starts};
ghost use Rattle.transyt_words.specs.Audit.{audit_line, audit_most};
ghost use Rattle.transyt_words.specs.Counts.{answer_of_counts, counted_line};
ghost use Rattle.transyt_words.specs.Equisat.{equisat_answer};
ghost use Rattle.transyt_words.specs.Scan.{scan_answer, table_lines};
ghost use Rattle.transyt_words.specs.WorkedAnswers.{at_seventeen, balance_lines, cut_after_three, idle_lines, refused_at_seven, said_rest};
ghost use Rattle.transyt_words.specs.WorkedAnswers.{scan_lines, steps_of_rest, worked_tables};
ghost use Rattle.transyt_words.specs.WorkedPlans.{no_cycles, starts_in_range, starts_out_of_range, three_cycles, three_starts};
ghost use Rattle.transyt_words.specs.WorkedPlans.{idle_start, later_starts};
ghost use Rattle.transyt_words.specs.WorkedPlans.{two_plan_lines, two_plans, unlinked, unlinked_at_66};
ghost use Rattle.transyt_words.specs.WorkedTexts.{a_best_line, line_with_deck, worked_lines};
ghost use Rattle.transyt_words.specs.WorkedTold.{both_texts, told_rows, two_lines, untold_rows};
ghost use Rattle.transyt_words.specs.declared.table.Numbered.TheVariants.{Cycles, Starts};

/// The worked lines have the texts that are written beside the definitions. Of a refused input nothing is written
/// before its end, and then the line of the refusal. Two bytes of at most 8 steps each may add 16, and not one more.
#[tactic(auto, using(crate::proofs::Worked::texts, crate::proofs::Worked::deck_is, crate::proofs::Worked::refused_report, crate::proofs::Worked::all_steps, crate::proofs::Worked::one_step_more))]
pub fn worked_texts()
    ensures texts { map (λ row. lines_text row.0) worked_lines ≡ map (λ row. row.1) worked_lines }
    ensures deck { answer_text (with_deck a_best_line (Some unlinked)) ≡ line_with_deck }
    ensures open { (of_whole (λ input. refusal (refused_card 7 Code.Unknown ∷ []))).ends (9 ∷ [])
        ≡ None }
    ensures report { (of_whole (λ input. refusal (refused_card 7 Code.Unknown ∷ []))).report
        (9 ∷ [])
        ≡ codes "CARD 7 REFUSED 17" ++ 10 ∷ [] }
    ensures refused { (of_whole (λ input. refusal (refused_card 7 Code.Unknown ∷ []))).refused
        (9 ∷ [])
        ≡ true }
    ensures steps { StepsWithin (λ bytes. 8 * length bytes) (Some (5 ∷ 7 ∷ 9 ∷ []))
        (Some (9 ∷ [])) 40 56 }
    ensures no_more_steps { ¬ StepsWithin (λ bytes. 8 * length bytes) (Some (5 ∷ 7 ∷ 9 ∷ []))
        (Some (9 ∷ [])) 40 57 }
{}

/// Of an answer of two lines each status says what is written beside the definitions, and not what is written there
/// that it doesn't. With three statuses nothing was written.
#[tactic(auto, using(crate::proofs::Worked::rows_told, crate::proofs::Worked::rows_untold, crate::proofs::Worked::told, crate::proofs::Worked::told_over))]
pub fn worked_told()
    ensures rows { Each (λ row. StatusSaysOfText (answer_text row.0) row.0.refused row.1 row.2) told_rows }
    ensures no_rows { Each (λ row. ¬ StatusSaysOfText (answer_text row.0) row.0.refused row.1 row.2)
        untold_rows }
    ensures told { Told (done two_lines) (Some (codes "x")) (Some (codes "x" ++ both_texts))
        Status.Done }
    ensures told_over { ¬ Told (done two_lines) (Some (codes "x")) (Some both_texts) Status.Done }
    ensures silent { Each IsSilent (Status.ReadFault ∷ Status.TooLong ∷ Status.NoMemory ∷ []) }
    ensures not_silent { Each (λ status. ¬ IsSilent status)
        (Status.Done ∷ Status.DeckRefused ∷ Status.WriteFault ∷ Status.BadWords ∷ []) }
{}

/// The worked answers come out as they are written beside the definitions.
pub fn worked_answers()
    ensures counts { map (λ row. answer_of_counts row.0) worked_tables
        ≡ map (λ row. row.1) worked_tables }
    ensures balance { equisat_answer (at_seventeen worked_town) ≡ done balance_lines }
    ensures yes { audit_line (Verdict.Yes 24 1352922)
        ≡ line_of (codes "AUDIT YES # INDEX #") (24 ∷ 1352922 ∷ []) }
    ensures no { audit_line (Verdict.No 31 Code.OtherLine)
        ≡ line_of (codes "AUDIT NO # #") (31 ∷ 28 ∷ []) }
    ensures audit_steps { audit_most (at_seventeen town) ≡ 387 }
    ensures scan { table_lines three_rows ≡ scan_lines }
    ensures scan_answer { scan_answer from_44 (at_seventeen idle) ≡ done idle_lines }
    ensures after_deck { answer_of_cut said_rest (2 ∷ 3 ∷ 5 ∷ 7 ∷ 11 ∷ []) cut_after_three
        ≡ done (counted_line 17 2 ∷ []) }
    ensures refused { answer_of_cut said_rest (2 ∷ 3 ∷ 5 ∷ 7 ∷ 11 ∷ []) refused_at_seven
        ≡ refusal (refused_card 7 Code.Unknown ∷ []) }
    ensures steps { most_of_cut steps_of_rest (2 ∷ 3 ∷ 5 ∷ 7 ∷ 11 ∷ []) cut_after_three ≡ 1702 }
    ensures no_steps { most_of_cut steps_of_rest (2 ∷ 3 ∷ 5 ∷ 7 ∷ 11 ∷ []) refused_at_seven ≡ 0 }
{}

/// The questions that `starts` may be asked, each number at its limits, and one past them.
pub fn worked_asked()
    ensures within { map (λ a. starts_of a.0 a.1 a.2 a.3) starts_in_range
        ≡ map (λ a. Some (record { workers = a.0; seed = a.1; count = a.2; from = a.3 }))
        starts_in_range }
    ensures beyond { map (λ a. starts_of a.0 a.1 a.2 a.3) starts_out_of_range
        ≡ map (λ _. None) starts_out_of_range }
{}

/// Worked answers of `starts` and `cycles`: of starts that are equal the first is the best, whichever start they begin
/// with; cycle times of each kind;
/// cycle times of which none has a plan, without a deck; and a climb that betters its network, whose deck is that of
/// its end.
pub fn worked_table()
    ensures starts { plans_answer Starts (starts 5 3 0) idle ≡ with_deck three_starts (Some idle) }
    ensures later_starts { plans_answer Starts (starts 5 2 1) idle
        ≡ with_deck later_starts (Some idle_start) }
    ensures cycles { plans_answer Cycles (cycles (times_of 60 66 3)) unlinked
        ≡ with_deck three_cycles (Some unlinked_at_66) }
    ensures none { plans_answer Cycles (cycles (times_of 57 63 3)) unlinked
        ≡ with_deck no_cycles None }
    ensures end { plans_answer Cycles two_plans unlinked
        ≡ with_deck two_plan_lines (Some (junction 0)) }
{}

/// A run of `starts` may be parted: its rows are those of its first starts, and then those from the next number on.
#[tactic(auto, using(crate::proofs::PartLaws::starts_parts))]
pub fn starts_in_parts()
    ensures { (net : Network) (seed first second from : ℕ)
        → table (starts seed (first + second) from) net
        ≡ table (starts seed first from) net ++ table (starts seed second (from + first)) net }
{}

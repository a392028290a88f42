//! Climbs in the words of the report, and worked reports.
ghost use Rattle.std.specs.Prelude.{◌≡◌, ◌+◌, ◌∷◌, [], ◌++◌, ℕ, All, List, None, Option, Some, codes, map, true};
ghost use Rattle.transyt_outcome.specs.Runs.{answers_by};
ghost use Rattle.transyt_outcome.specs.declared.status.Status.{Status};
ghost use Rattle.transyt_syntax.specs.Codes.{number};
ghost use Rattle.transyt_parts.specs.Made.{new_plan};
ghost use Rattle.transyt_net.specs.declared.edit.EditFault.{EditFault};
ghost use Rattle.transyt_net.specs.Edits.{with_edit};
ghost use Rattle.transyt_net.specs.Parts.{Network};
ghost use Rattle.transyt_net.specs.Valid.{IsValid};
ghost use Rattle.transyt_stage.specs.ThreeJunctions.{three_junctions};
ghost use Rattle.transyt_sweep.specs.Climb.{climb};
ghost use Rattle.transyt_commands.specs.declared.command.Command.{Command};
ghost use Rattle.transyt_session.specs.Session.{SessionValue};
ghost use Rattle.transyt_session.specs.WorkedSessions.{begun, in_trial, kept, taken_back};
ghost use Rattle.transyt_climb.specs.Way.{IsLocal};
ghost use Rattle.transyt_climb.specs.WorkedTurns.{idle, by_last};
ghost use Rattle.transyt_line_answers.specs.declared.answer.Answer.{Answer};
ghost use Rattle.transyt_line_answers.specs.Commands.{after_answer, answer_text, answer_to, budget_of, climb_text, judged};
ghost use Rattle.transyt_line_answers.specs.Refusals.{edit_code};
ghost use Rattle.transyt_line_answers.specs.Report.{deck_answering, report, run_state, status, steps_in};
ghost use Rattle.transyt_line_answers.specs.Steps.{ArePlanned, IsLowering, LeadDown};
ghost use Rattle.transyt_line_answers.specs.WorkedCommands.{climb_lines, some_climb, worked_answers};
ghost use Rattle.transyt_line_answers.specs.WorkedLowering.{after_two, earlier, earlier_again, first_step, late_stage, stays};
ghost use Rattle.transyt_line_answers.specs.WorkedLowering.{idle_step, wrong_steps};
ghost use Rattle.transyt_line_answers.specs.WorkedReports.{answers, climb_answers, climb_commands, commands, no_link, one_link};
ghost use Rattle.transyt_line_answers.specs.WorkedReports.{taken_number, text_of, without_end};
ghost use Rattle.transyt_line_answers.specs.WorkedTrial.{trial_answers, trial_commands, two_junctions};

/// Each step of a climb strictly lowers the index within every minimum green and intergreen, and a climb that ends as
/// LOCAL ends at a network of which no listed move is allowed and lowers the index.
#[tactic(auto, using(crate::proofs::StepLaws::climb_leads, transyt_climb::proofs::LocalLaws::local_climb))]
pub fn steps_lower()
    ensures steps { (net : Network) (place left : ℕ) → IsValid net
        → LeadDown net (climb net place left).steps (climb net place left).net }
    ensures local { (net : Network) (place left : ℕ) → (climb net place left).local ≡ true
        → IsLocal (climb net place left).net }
{}

/// The steps of lines that don't end the run are S times the links of the deck, once its END is accepted, and the work
/// of the session after them, which WORK prints.
#[tactic(auto, using(crate::proofs::CostLaws::steps_are))]
pub fn steps_are_work()
    ensures { (lines : List (List ℕ)) → (answers_by deck_answering lines).ending ≡ None
        → (answers_by deck_answering lines).steps ≡ steps_in (run_state lines) }
{}

/// The worked reports come out as they are written beside the definitions, with their statuses and their steps.
#[tactic(auto, using(crate::proofs::Worked::commands_reported, crate::proofs::Worked::climb_reported, crate::proofs::Worked::card_refused_at, crate::proofs::Worked::end_missing, crate::proofs::Worked::steps_of_commands, crate::proofs::Worked::steps_of_refused))]
pub fn worked_reports()
    ensures commands { report (text_of (one_link ++ commands)) ≡ text_of answers }
    ensures climb { report (text_of (no_link ++ climb_commands)) ≡ text_of climb_answers }
    ensures refused { report (text_of taken_number) ≡ codes "CARD 4 REFUSED 16" ++ 10 ∷ [] }
    ensures no_end { report (text_of without_end) ≡ codes "CARD 4 REFUSED 21" ++ 10 ∷ [] }
    ensures done { status (text_of (one_link ++ commands)) ≡ Status.Done }
    ensures refused_status { status (text_of taken_number) ≡ Status.DeckRefused }
    ensures steps { (answers_by deck_answering (one_link ++ commands)).steps ≡ 8 }
    ensures refused_steps { (answers_by deck_answering taken_number).steps ≡ 0 }
{}

/// DECK, PLOT and PROFILE in a trial tell the network as it stands then, and DECK after BACK that of before the trial.
#[tactic(auto, using(crate::proofs::WorkedTrial::trial_reported))]
pub fn worked_trial()
    ensures { report (text_of (two_junctions (codes "4") ++ trial_commands))
        ≡ text_of trial_answers }
{}

/// The answers to the worked requests, without a trial, in one and without a climb plan; the text of an answer, in a
/// trial too, is of the network now; the session after BACK and after KEEP; the codes of an edit's faults, the budget
/// of a climb, the work of a certificate, and the lines of a climb.
#[tactic(auto, using(crate::proofs::WorkedCommands::certified, crate::proofs::WorkedCommands::of_now, crate::proofs::WorkedCommands::climb_told))]
pub fn worked_commands()
    ensures answers { map (λ row. answer_to row.0 row.1) worked_answers
        ≡ map (λ row. row.2) worked_answers }
    ensures codes { map (λ fault. number (edit_code fault)) (EditFault.Unknown ∷ EditFault.NoFeeder
        ∷ EditFault.Range ∷ EditFault.StageOrder ∷ EditFault.LeastGreen ∷ [])
        ≡ 17 ∷ 23 ∷ 14 ∷ 18 ∷ 19 ∷ [] }
    ensures budgets { map budget_of (None ∷ Some (new_plan 7 (2 ∷ 4 ∷ [])) ∷ []) ≡ 0 ∷ 7 ∷ [] }
    ensures now { (s : SessionValue) (before : Option Network) (answer : Answer)
        → answer_text (record s { before = before }) answer ≡ answer_text s answer }
    ensures ended { map (λ command. judged command in_trial) (Command.Back ∷ Command.Keep ∷ [])
        ≡ taken_back ∷ kept ∷ [] }
    ensures certified { after_answer Answer.Cert begun ≡ record begun { work = 71 } }
    ensures lines { climb_text some_climb ≡ climb_lines }
{}

/// The first move of the three junctions is a step that lowers the index; with another edit or index it is none, and
/// neither is one that leaves the index as it was.
/// A node whose second stage begins after the cycle's last step isn't planned. Two steps of the network of one link
/// lead down to the network after both: not to the one after the first, and to none with a step between them that
/// doesn't lower.
#[tactic(auto, using(crate::proofs::WorkedLowering::is_lowering, crate::proofs::WorkedLowering::none_is_lowering, crate::proofs::WorkedLowering::not_lower, crate::proofs::WorkedLowering::late, crate::proofs::WorkedLowering::two_lead, crate::proofs::WorkedLowering::other_last, crate::proofs::WorkedLowering::no_step, crate::proofs::WorkedLowering::stays_between))]
pub fn worked_lowering()
    ensures step { IsLowering three_junctions first_step }
    ensures wrong_steps { All (λ step. IsLowering three_junctions step → ⊥) wrong_steps }
    ensures not_lower { IsLowering idle idle_step → ⊥ }
    ensures late { ArePlanned late_stage → ⊥ }
    ensures lead { LeadDown by_last (earlier ∷ earlier_again ∷ []) after_two }
    ensures other_last { LeadDown by_last (earlier ∷ earlier_again ∷ [])
        (with_edit by_last earlier.edit) → ⊥ }
    ensures no_step { LeadDown by_last [] (with_edit by_last earlier.edit) → ⊥ }
    ensures stays { (last : Network)
        → LeadDown by_last (earlier ∷ stays ∷ earlier_again ∷ []) last → ⊥ }
{}

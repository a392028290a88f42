//! Laws about the definitions.
ghost use Rattle.std.specs.Prelude.{◌≡◌, ◌<◌, ℕ, List, [], ◌∷◌, Option, None, Some, All, false, length, map};
ghost use Rattle.transyt_make.specs.Made.{made};
ghost use Rattle.transyt_outcome.specs.Outcome.{StatusSaysOfText};
ghost use Rattle.transyt_outcome.specs.Runs.{StepsTaken};
ghost use Rattle.transyt_outcome.specs.declared.status.Status.{Status};
ghost use Rattle.transyt_reporter.specs.Brief.{brief_steps};
ghost use Rattle.transyt_line_answers.specs.Report.{deck_answering};
ghost use Rattle.transyt.specs.declared.town.Town.{Town};
ghost use Rattle.transyt.specs.declared.word.Word.{Word};
ghost use Rattle.transyt_net.specs.Parts.{Network};
ghost use Rattle.transyt_words.specs.Answer.{done, of_whole};
ghost use Rattle.transyt.specs.Reports.{Descends};
ghost use Rattle.transyt.specs.Tasks.{Reads, TaskComplete, TaskHeadline, TaskTooLong, TextSteps, Writes};
ghost use Rattle.transyt.specs.Words.{WordSteps, IsWord, word_of};
ghost use Rattle.transyt.specs.WorkedWords.{words_in_range, words_out_of_range, worked_words};

/// The worked words ask for what is written beside the definitions.
pub fn worked_words()
    ensures { map (λ row. word_of row.0) worked_words ≡ map (λ row. row.1) worked_words }
{}

/// The numbers of words are in their ranges at each limit, and not one past it.
pub fn worked_ranges()
    ensures within { All IsWord words_in_range }
    ensures beyond { All (λ w. IsWord w → ⊥) words_out_of_range }
{}

/// The steps of a text are exactly its own where it was written, and else at most those. With one worker the steps of
/// `run` and `brief` are told, and with more nothing is said of them.
#[tactic(auto, using(crate::proofs::WorkedSteps::all_written, crate::proofs::WorkedSteps::at_most, crate::proofs::WorkedSteps::one_too_many, crate::proofs::WorkedSteps::run_by_one, crate::proofs::WorkedSteps::run_by_two, crate::proofs::WorkedSteps::brief_by_one, crate::proofs::WorkedSteps::brief_by_two))]
pub fn worked_steps()
    ensures written { TextSteps 16 40 56 Status.Done }
    ensures at_most { TextSteps 16 40 56 Status.WriteFault }
    ensures too_many { TextSteps 16 40 57 Status.WriteFault → ⊥ }
    ensures run { (left left_new : Option (List ℕ)) (steps steps_new : ℕ) (status : Status)
        → WordSteps (Word.Run 1) left left_new steps steps_new status
        → StepsTaken deck_answering left left_new steps steps_new status }
    ensures run_by_two { WordSteps (Word.Run 2) None None 40 7 Status.Done }
    ensures brief { (town : Town) (left left_new : Option (List ℕ)) (steps steps_new : ℕ)
        (status : Status)
        → WordSteps (Word.Brief town 1) left left_new steps steps_new status
        → TextSteps (brief_steps (made town.seed town.nodes)) steps steps_new status }
    ensures brief_by_two { WordSteps (Word.Brief (record { seed = 7; nodes = 1 }) 2) None None 40 7
        Status.Done }
{}

/// The meaning of a status for a text, an input of too many bytes and a climb: cases that hold, and cases that don't.
#[tactic(auto, using(crate::proofs::WorkedTasks::text_whole, crate::proofs::WorkedTasks::text_cut, crate::proofs::WorkedTasks::text_front, crate::proofs::WorkedTasks::text_other, crate::proofs::WorkedTasks::headline_after, crate::proofs::WorkedTasks::headline_over, crate::proofs::WorkedTasks::text_complete, crate::proofs::WorkedTasks::text_refused, crate::proofs::WorkedTasks::many_bytes, crate::proofs::WorkedTasks::many_done, crate::proofs::WorkedTasks::no_looks, crate::proofs::WorkedTasks::too_few_looks))]
pub fn worked_tasks()
    ensures whole { StatusSaysOfText (5 ∷ 7 ∷ []) false (5 ∷ 7 ∷ []) Status.Done }
    ensures cut { StatusSaysOfText (5 ∷ 7 ∷ []) false (5 ∷ []) Status.Done → ⊥ }
    ensures front { StatusSaysOfText (5 ∷ 7 ∷ []) false (5 ∷ []) Status.WriteFault }
    ensures other { StatusSaysOfText (5 ∷ 7 ∷ []) false (7 ∷ []) Status.WriteFault → ⊥ }
    ensures after { TaskHeadline (Writes (5 ∷ 7 ∷ [])) None (Some (9 ∷ [])) (Some (9 ∷ 5 ∷ 7 ∷ []))
        Status.Done }
    ensures over { TaskHeadline (Writes (5 ∷ 7 ∷ [])) None (Some (9 ∷ [])) (Some (5 ∷ 7 ∷ []))
        Status.Done → ⊥ }
    ensures complete { TaskComplete (Writes (5 ∷ 7 ∷ [])) None Status.Done }
    ensures refused { TaskComplete (Writes (5 ∷ 7 ∷ [])) None Status.DeckRefused → ⊥ }
    ensures many { (input : List ℕ)
        → TaskTooLong (Reads (of_whole (λ bytes. done []))) (Some input) Status.TooLong }
    ensures many_done { (input : List ℕ) → 4194304 < length input
        → TaskTooLong (Reads (of_whole (λ bytes. done []))) (Some input) Status.Done → ⊥ }
    ensures no_looks { (net : Network)
        → Descends net 0 (record { steps = []; «local» = false; looks = []; net = net }) }
    ensures too_few_looks { (net : Network)
        → Descends net 1 (record { steps = []; «local» = false; looks = []; net = net }) → ⊥ }
{}

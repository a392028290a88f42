//! Laws about worked runs, calls and climbs: such as may be, and such as are wrong in one thing.
ghost use Rattle.std.specs.Prelude.{◌≡◌, ◌++◌, ℕ, List, [], ◌∷◌, Some, codes, map};
ghost use Rattle.std.specs.declared.io.ErrorKind.{ErrorKind};
ghost use Rattle.transyt_io.specs.Lines.{lines};
ghost use Rattle.transyt_net.specs.Parts.{Network};
ghost use Rattle.transyt_deck.specs.Deck.{Complete, deck};
ghost use Rattle.transyt_climb.specs.WorkedTurns.{idle, by_last};
ghost use Rattle.transyt_outcome.specs.declared.status.Status.{Status};
ghost use Rattle.transyt_outcome.specs.WorkedOutcomes.{Each};
ghost use Rattle.transyt_line_answers.specs.Report.{InSession, reporting_run};
ghost use Rattle.transyt_line_answers.specs.Steps.{IsLowering};
ghost use Rattle.transyt_line_answers.specs.WorkedLowering.{earlier};
ghost use Rattle.transyt.specs.Program.{ArgsRan, OverHeadline, OverRan, ProgramHeadline, ProgramRan, after_name};
ghost use Rattle.transyt.specs.Program.{number_without_words};
ghost use Rattle.transyt.specs.Reports.{ClimbDescends, Descends, IsRefusedByDeck, IsRefusedOrOpen};
ghost use Rattle.transyt.specs.Tasks.{Reads, TaskComplete, TaskHeadline};
ghost use Rattle.transyt.specs.WorkedClimbs.{at_once, barred, by_three, by_two, earlier_there, to_first, unplanned};
ghost use Rattle.transyt.specs.WorkedProgram.{before, held, make_words, no_card, no_words, refusal, run_words};
ghost use Rattle.transyt.specs.WorkedProgram.{told_after, unread, unworked_runs, worked_runs};

/// Runs over a reader and a writer end as it is written beside the definitions, and not as it is written there that
/// they don't; and so it is with the headline, and without memory for the words.
#[tactic(auto, using(crate::proofs::WorkedRuns::all_may, crate::proofs::WorkedRuns::none_may, crate::proofs::WorkedRuns::other_told, crate::proofs::WorkedRuns::other_number, crate::proofs::WorkedRuns::no_list, crate::proofs::WorkedRuns::usage_told))]
pub fn worked_runs()
    ensures runs { Each (λ run. OverRan run.0 (Some no_card) (Some held) (Some run.1) run.2)
        worked_runs }
    ensures no_runs { Each (λ run. OverRan run.0 (Some no_card) (Some held) (Some run.1) run.2 → ⊥)
        unworked_runs }
    ensures headline { OverHeadline run_words (Some no_card) (Some held)
        (Some (held ++ refusal)) 2 }
    ensures headline_text { OverHeadline run_words (Some no_card) (Some held)
        (Some (held ++ codes "?")) 2 → ⊥ }
    ensures headline_number { OverHeadline run_words (Some no_card) (Some held)
        (Some (held ++ refusal)) 0 → ⊥ }
    ensures list { ArgsRan no_words (Some no_card) (Some held) (Some held) 5 }
    ensures list_usage { ArgsRan no_words (Some no_card) (Some held)
        (Some (held ++ codes "usage")) 5 → ⊥ }
{}

/// A call with words that aren't taken leaves all as it was, and one that writes a text reads nothing; a failed read is
/// counted; with `run` the report stands after what the sink held. The number without words tells whether there was
/// memory, and the program's own name is none of its words.
#[tactic(auto, using(crate::proofs::WorkedProgram::untaken, crate::proofs::WorkedProgram::untaken_number, crate::proofs::WorkedProgram::untaken_usage, crate::proofs::WorkedProgram::untaken_read, crate::proofs::WorkedProgram::make_read, crate::proofs::WorkedProgram::read_failed, crate::proofs::WorkedProgram::none_failed, crate::proofs::WorkedProgram::headline_said, crate::proofs::WorkedProgram::headline_lost))]
pub fn worked_calls()
    ensures untaken { ProgramRan no_words before before 1 }
    ensures untaken_number { ProgramRan no_words before before 0 → ⊥ }
    ensures untaken_usage { ProgramRan no_words before (record before {
      tell
          = record before.tell { written = Some (held ++ codes "usage") };
    }) 1 → ⊥ }
    ensures untaken_read { ProgramRan no_words before (record before { source = 4 }) 1 → ⊥ }
    ensures make_read { ProgramRan make_words before (record before { source = 4 }) 5 → ⊥ }
    ensures failed { ProgramRan run_words before (unread 3) 3 }
    ensures not_failed { ProgramRan run_words before (unread 2) 3 → ⊥ }
    ensures headline { ProgramHeadline run_words before.tell (told_after (held ++ refusal)) 2 }
    ensures headline_lost { ProgramHeadline run_words before.tell (told_after refusal) 2 → ⊥ }
    ensures numbers { map number_without_words (ErrorKind.OutOfMemory ∷ ErrorKind.InvalidData ∷ [])
        ≡ 5 ∷ 7 ∷ [] }
    ensures name { after_name (codes "transyt" ∷ run_words) ≡ run_words }
    ensures no_name { after_name {X = List ℕ} [] ≡ [] }
{}

/// What words that read ask for is the report after what the sink held, with its status, which for `run` is a refusal
/// exactly where the deck is refused or open.
#[tactic(auto, using(crate::proofs::WorkedProgram::task_said, crate::proofs::WorkedProgram::task_lost, crate::proofs::WorkedProgram::task_done, crate::proofs::WorkedProgram::task_refused, crate::proofs::WorkedProgram::task_other, crate::proofs::WorkedProgram::refused_card, crate::proofs::WorkedProgram::done_card, crate::proofs::WorkedProgram::done_whole, crate::proofs::WorkedProgram::refused_whole))]
pub fn worked_refusals()
    ensures said { TaskHeadline (Reads reporting_run) (Some no_card) (Some held)
        (Some (held ++ refusal)) Status.DeckRefused }
    ensures lost { TaskHeadline (Reads reporting_run) (Some no_card) (Some held) (Some refusal)
        Status.DeckRefused → ⊥ }
    ensures done { TaskHeadline (Reads reporting_run) (Some no_card) (Some held)
        (Some (held ++ refusal)) Status.Done → ⊥ }
    ensures complete { TaskComplete (Reads reporting_run) (Some no_card) Status.DeckRefused }
    ensures complete_done { TaskComplete (Reads reporting_run) (Some no_card) Status.Done → ⊥ }
    ensures refused_card { IsRefusedByDeck Status.DeckRefused no_card }
    ensures done_card { IsRefusedByDeck Status.Done no_card → ⊥ }
    ensures done_whole { (input : List ℕ) (number : ℕ) (net : Network)
        → deck (lines input) ≡ Complete number net → IsRefusedByDeck Status.Done input }
    ensures refused_whole { (input : List ℕ) (number : ℕ) (net : Network)
        → deck (lines input) ≡ Complete number net
        → IsRefusedByDeck Status.DeckRefused input → ⊥ }
    ensures card { IsRefusedOrOpen (deck (lines no_card)) }
    ensures open_yet { IsRefusedOrOpen (deck []) }
    ensures whole { (number : ℕ) (net : Network) → IsRefusedOrOpen (Complete number net) → ⊥ }
{}

/// A climb descends by steps of which each is allowed and lowers the index, to the network after all of them; at LOCAL
/// no move lowers it, and at BUDGET all looks were taken. A barred move is no step, nor one after which a plan isn't
/// allowed.
#[tactic(auto, using(crate::proofs::WorkedClimbs::two_descend, crate::proofs::WorkedClimbs::first_last, crate::proofs::WorkedClimbs::stays_then, crate::proofs::WorkedClimbs::two_of_eight, crate::proofs::WorkedClimbs::idle_local, crate::proofs::WorkedClimbs::last_lowers, crate::proofs::WorkedClimbs::barred_move, crate::proofs::WorkedClimbs::not_planned, crate::proofs::WorkedClimbs::session_descends, crate::proofs::WorkedClimbs::session_lowers))]
pub fn worked_climbs()
    ensures steps { Descends by_last 7 by_two }
    ensures other_net { Descends by_last 7 to_first → ⊥ }
    ensures not_lower { Descends by_last 7 by_three → ⊥ }
    ensures looks { Descends by_last 8 by_two → ⊥ }
    ensures at_local { Descends idle 7 (at_once idle 6) }
    ensures not_local { Descends by_last 7 (at_once by_last 7) → ⊥ }
    ensures barred { IsLowering barred earlier → ⊥ }
    ensures unplanned { IsLowering unplanned earlier_there → ⊥ }
    ensures session { (work : ℕ) → ClimbDescends (λ net. by_two)
        (InSession (record { net = by_last; before = Some idle; work = work })) }
    ensures session_lowers { (work : ℕ) → ClimbDescends (λ net. at_once net 7)
        (InSession (record { net = by_last; before = Some idle; work = work })) → ⊥ }
{}

//! Laws about what is claimed of an input, and about runs at the limit of 4,194,304 bytes.
ghost use Rattle.std.specs.Prelude.{◌≡◌, ◌++◌, ◌∷◌, ℕ, List, [], None, Some, codes, length};
ghost use Rattle.transyt_outcome.specs.Outcome.{Complete, Headline, IsSettled, StatusSays, TooLongWhere};
ghost use Rattle.transyt_outcome.specs.Runs.{StepsSaid, of_lines};
ghost use Rattle.transyt_outcome.specs.WorkedLimits.{fault_rows, no_fault_rows, no_step_rows, refused_lines, step_rows};
ghost use Rattle.transyt_outcome.specs.WorkedLimits.{tally};
ghost use Rattle.transyt_outcome.specs.WorkedOutcomes.{Each, echo, two_lines, two_report};
ghost use Rattle.transyt_outcome.specs.declared.status.Status.{Status};

/// Runs end with a fault, and take steps, as it is written beside the definitions, and not as it is written there that
/// they don't.
pub fn worked_faults()
    ensures rows { Each (λ row. StatusSays (of_lines echo) row.0 row.1 row.2 row.3 row.4) fault_rows }
    ensures no_rows { Each (λ row. ¬ StatusSays (of_lines echo) row.0 row.1 row.2 row.3 row.4)
        no_fault_rows }
    ensures steps { Each (λ row. StepsSaid echo (Some (codes "f")) row.0 7 row.1 row.2) step_rows }
    ensures no_steps { Each (λ row. ¬ StepsSaid echo (Some (codes "f")) row.0 7 row.1 row.2)
        no_step_rows }
{}

/// The report follows what the sink held, and the status is the report's, of which nothing is claimed where the source
/// doesn't tell. The reporting of lines is settled; one that a third byte opens again isn't.
pub fn worked_claims()
    ensures headline { Headline (of_lines echo) (Some two_lines) (Some (codes "x"))
        (Some (codes "x" ++ two_report)) Status.Done }
    ensures headline_held { ¬ Headline (of_lines echo) (Some two_lines) (Some (codes "x"))
        (Some two_report) Status.Done }
    ensures headline_status { ¬ Headline (of_lines echo) (Some two_lines) (Some (codes "x"))
        (Some (codes "x" ++ two_report)) Status.DeckRefused }
    ensures headline_untold { Headline (of_lines echo) None (Some []) (Some []) Status.WriteFault }
    ensures complete { Complete (of_lines echo) (Some refused_lines) Status.DeckRefused }
    ensures complete_status { ¬ Complete (of_lines echo) (Some refused_lines) Status.Done }
    ensures settled { IsSettled (of_lines echo) }
    ensures unsettled { ¬ IsSettled (tally 2) }
{}

/// A run that took 4,194,305 bytes is too long, and wrote the text of the bytes before the last, if they don't end the
/// run. The report and the status are claimed of an input of 4,194,304 bytes and of none longer; that an input is too long
/// is claimed from one more on, where the bytes before don't end the run.
pub fn worked_limits()
    ensures long { (bytes : List ℕ) → length bytes ≡ 4194305
        → StatusSays (tally 4194305) (Some (9 ∷ [])) (Some 1) bytes (4194304 ∷ []) Status.TooLong }
    ensures not_long { (bytes : List ℕ) → length bytes ≡ 4194304
        → ¬ StatusSays (tally 5) (Some (9 ∷ [])) (Some 1) bytes (4194304 ∷ []) Status.TooLong }
    ensures other_text { (bytes : List ℕ) → length bytes ≡ 4194305
        → ¬ StatusSays (tally 5) (Some (9 ∷ [])) (Some 1) bytes (4194305 ∷ []) Status.TooLong }
    ensures ended { (bytes : List ℕ) → length bytes ≡ 4194305
        → ¬ StatusSays (tally 4194304) (Some (9 ∷ [])) (Some 1) bytes (4194304 ∷ []) Status.TooLong }
    ensures headline { (bytes : List ℕ) → length bytes ≡ 4194304
        → ¬ Headline (tally 5) (Some bytes) (Some (3 ∷ [])) (Some (3 ∷ [])) Status.Done }
    ensures headline_over { (bytes : List ℕ) → length bytes ≡ 4194305
        → Headline (tally 5) (Some bytes) (Some (3 ∷ [])) (Some (3 ∷ [])) Status.Done }
    ensures complete { (bytes : List ℕ) → length bytes ≡ 4194304
        → ¬ Complete (tally 5) (Some bytes) Status.TooLong }
    ensures too_long { (bytes : List ℕ) → length bytes ≡ 4194305
        → ¬ TooLongWhere (tally 4194303) (Some bytes) Status.Done }
    ensures too_long_ended { (bytes : List ℕ) → length bytes ≡ 4194305
        → TooLongWhere (tally 4194304) (Some bytes) Status.Done }
{}

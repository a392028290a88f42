//! The table of outcomes, at runs in which no number is neutral.
ghost use Rattle.std.specs.Prelude.{◌≡◌, ◌∷◌, ℕ, List, [], Some, false, length};
ghost use Rattle.transyt_outcome.specs.Outcome.{Finished, Reporting, StatusSays};
ghost use Rattle.transyt_outcome.specs.Runs.{StepsSaid, of_lines};
ghost use Rattle.transyt_outcome.specs.WorkedOutcomes.{Each, echo, unworked_rows, unworked_steps, worked_rows};

/// Runs end with a status and in steps as it is written beside the definitions, and not as it is written there that
/// they don't. One that took 4,194,305 bytes isn't done.
pub fn worked_outcomes()
    ensures rows { Each (λ row. StatusSays (of_lines echo) row.0 row.1 row.2 row.3 row.5) worked_rows }
    ensures steps { Each (λ row. StepsSaid echo row.0 row.2 7 row.4 row.5) worked_rows }
    ensures no_rows { Each (λ row. ¬ StatusSays (of_lines echo) row.0 row.1 row.2 row.3 row.5)
        unworked_rows }
    ensures no_steps { Each (λ row. ¬ StepsSaid echo row.0 row.2 7 row.4 row.5) unworked_steps }
    ensures too_many { (by : Reporting) (bytes out : List ℕ) → length bytes ≡ 4194305
        → ¬ Finished by (Some []) bytes out false }
{}

//! Worked differences round the cycle.

ghost use Rattle.std.specs.Prelude.{◌≡◌, map};
ghost use Rattle.transyt_cycle.specs.Cycle.{minus_mod};
ghost use Rattle.transyt_cycle.specs.Worked.{worked_differences};

/// The worked values come out as they are written beside the definitions.
pub fn worked_differences()
    ensures { map (λ row. minus_mod row.0.0 row.0.1 row.0.2) worked_differences
        ≡ map (λ row. row.1) worked_differences }
{}

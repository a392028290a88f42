//! A worked brief.
ghost use Rattle.std.specs.Prelude.{◌≡◌, ◌+◌, ◌∷◌, [], ◌++◌, ℕ, Some, codes};
ghost use Rattle.transyt_deck.specs.Deck.{Complete};
ghost use Rattle.transyt_parts.specs.Parts.{PlanValue};
ghost use Rattle.transyt_net.specs.Parts.{Network};
ghost use Rattle.transyt_stage.specs.ThreeJunctions.{three_junctions};
ghost use Rattle.transyt_session.specs.Session.{opened};
ghost use Rattle.transyt_climb.specs.WorkedTurns.{idle};
ghost use Rattle.transyt_line_answers.specs.Report.{InSession, deck_steps, line_steps};
ghost use Rattle.transyt_line_answers.specs.WorkedCommands.{some_climb};
ghost use Rattle.transyt_reporter.specs.Brief.{brief_steps, brief_text, climbed_line};
ghost use Rattle.transyt_reporter.specs.WorkedBrief.{climb_line};

/// A brief on a network without links; the line for a climb on the three junctions; a brief takes the steps of END and
/// CLIMB, which the report counts one by one.
#[tactic(auto, using(crate::proofs::WorkedBrief::brief_is, crate::proofs::WorkedBrief::brief_told, crate::proofs::WorkedBrief::steps_of_brief))]
pub fn worked_brief()
    ensures text { brief_text idle ≡ codes "BRIEF 1 0 FROM 0 TOOK 0 LOCAL 6 TO 0" ++ 10 ∷ [] }
    ensures line { climbed_line three_junctions some_climb ≡ climb_line }
    ensures steps { (net : Network) (plan : PlanValue) (number : ℕ)
        → brief_steps (record net { plan = Some plan })
        ≡ deck_steps (Complete number (record net { plan = Some plan }))
        + line_steps (InSession (opened (record net { plan = Some plan }))) (codes "CLIMB") }
{}

//! Laws about the definitions.

ghost use Rattle.std.specs.Prelude.{◌≡◌, map};
ghost use Rattle.transyt_delay.specs.Figures.{figures};
ghost use Rattle.transyt_delay.specs.WorkedLinks.{worked};

/// The worked links have the figures that are written beside the definitions.
#[tactic(auto, using(crate::proofs::Worked::links))]
pub fn worked_links()
    ensures { map (λ row. figures row.0) worked ≡ map (λ row. row.1) worked }
{}

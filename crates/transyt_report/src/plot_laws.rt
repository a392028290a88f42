//! Laws about the definitions.
ghost use Rattle.std.specs.Prelude.{◌≡◌, ◌∷◌, [], codes, map, slice_index_or};
ghost use Rattle.transyt_stage.specs.ThreeJunctions.{three_junctions};
ghost use Rattle.transyt_sweep.specs.WorkedLinks.{arrivals_of_three, gos_of_three, outs_of_three};
ghost use Rattle.transyt_report.specs.Plot.{plot_of, plot_text, three_digits};
ghost use Rattle.transyt_report.specs.WorkedPlots.{three_steps, one_step, open_step};

/// The plots that are written beside the definitions, worked out apart, come out of them.
#[tactic(auto, using(crate::proofs::WorkedPlot::three_digits_are, crate::proofs::WorkedPlot::three_are, crate::proofs::WorkedPlot::one_is, crate::proofs::WorkedPlot::open_is))]
pub fn worked_plots()
    ensures digits { map three_digits (117 ∷ 99 ∷ 100 ∷ [])
        ≡ codes "117" ∷ codes "099" ∷ codes "100" ∷ [] }
    ensures three { plot_of 8 (558201 ∷ 468920 ∷ 1563415 ∷ []) (2776388 ∷ 2776388 ∷ 0 ∷ [])
        (2776388 ∷ 2776379 ∷ 0 ∷ [])
        ≡ three_steps }
    ensures one { plot_of 1 (0 ∷ []) (0 ∷ []) (0 ∷ []) ≡ one_step }
    ensures open { plot_of 5 (2 ∷ []) (8 ∷ []) (5 ∷ []) ≡ open_step }
{}

/// The plot of a link is that of its arrivals, GO and departures: the link at place 3 of the three junctions has the
/// number 4.
#[tactic(auto, using(crate::proofs::WorkedLink::fourth_is))]
pub fn worked_link()
    ensures { plot_text three_junctions 3 ≡ plot_of 4 (slice_index_or arrivals_of_three 3 [])
        (slice_index_or gos_of_three 3 []) (slice_index_or outs_of_three 3 []) }
{}

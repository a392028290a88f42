//! Laws about the definitions.

ghost use Rattle.std.specs.Prelude.{◌≡◌};
ghost use Rattle.transyt_kept.specs.Rows.{pair_in, placed, with_rest, with_arrivals, with_go, index_in};
ghost use Rattle.transyt_kept.specs.WorkedRows.{rows, second_link, another, placed_before, placed_last};
ghost use Rattle.transyt_kept.specs.WorkedRows.{with_another, arrivals_of_another, go_of_another};

/// The worked rows are read and written as it is written beside them.
pub fn worked_rows()
    ensures read { pair_in rows 1 1 ≡ second_link }
    ensures before { placed rows 0 1 another ≡ placed_before }
    ensures last { placed rows 1 0 another ≡ placed_last }
    ensures rest { with_rest rows 0 another ≡ with_another }
    ensures arrivals { with_arrivals rows 1 another.arrivals another.queue another.figures
        ≡ arrivals_of_another }
    ensures go { with_go rows 1 another.go ≡ go_of_another }
    ensures index { index_in rows ≡ 138 }
{}

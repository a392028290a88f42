//! Laws about the definitions.

ghost use Rattle.std.specs.Prelude.{◌≡◌, map, length};
ghost use Rattle.std.specs.List.{range_with_len};
ghost use Rattle.transyt_stage.specs.Green.{is_green, green_at, signal, yielding};
ghost use Rattle.transyt_stage.specs.ThreeJunctions.{three_junctions};
ghost use Rattle.transyt_stage.specs.WorkedGreens.{greens, green_steps, lagging, yields};

/// The worked greens come out as they are written beside the definitions.
pub fn worked_greens()
    ensures greens { map (signal three_junctions) (range_with_len 0 8) ≡ greens }
    ensures steps { map (is_green three_junctions 0) (range_with_len 0 18) ≡ green_steps }
    ensures lags { map (λ row. map (green_at row.0 row.1 row.2)
        (range_with_len 0 (length row.0))) lagging
        ≡ map (λ row. row.3) lagging }
    ensures yields { map (λ row. yielding row.0 row.1 row.2) yields ≡ map (λ row. row.3) yields }
{}

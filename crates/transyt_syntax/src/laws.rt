//! Laws about the definitions.
ghost use Rattle.std.specs.Prelude.{◌≡◌, ◌++◌, [], ◌∷◌, map, replicate, Some, None};
ghost use Rattle.std.specs.List.{range_with_len};
ghost use Rattle.transyt_syntax.specs.Codes.{number};
ghost use Rattle.transyt_syntax.specs.Syntax.{few_numbers, said};
ghost use Rattle.transyt_syntax.specs.WorkedLines.{each_code, many, table, worked};

/// The worked lines have the meaning written beside the definitions; seventeen words are the most that are read as
/// numbers; and the codes have the numbers from 10 on.
pub fn worked_lines()
    ensures said { map (λ row. said table row.0) worked ≡ map (λ row. row.1) worked }
    ensures most { few_numbers (many 1) ≡ Some (7 ∷ replicate 16 11) }
    ensures one_over { few_numbers (many 2) ≡ None }
    ensures codes { map number each_code ≡ range_with_len 10 20 }
{}

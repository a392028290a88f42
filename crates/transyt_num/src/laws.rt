//! Laws about the definitions.

ghost use Rattle.std.specs.Prelude.{◌≡◌, All, map};
ghost use Rattle.transyt_num.specs.Number.{number_of, IsShortest};
ghost use Rattle.transyt_num.specs.Root.{root};
ghost use Rattle.transyt_num.specs.WorkedNumbers.{other_texts, shortest_texts, worked_roots, worked_words};

/// The worked words and roots come out as they are written beside the definitions; the worked texts are the shortest of
/// their numbers, and those with one thing wrong aren't.
#[tactic(auto, using(crate::proofs::Worked::words, crate::proofs::Worked::roots))]
pub fn worked_numbers()
    ensures words { map (λ row. number_of row.0) worked_words ≡ map (λ row. row.1) worked_words }
    ensures roots { map (λ row. root row.0) worked_roots ≡ map (λ row. row.1) worked_roots }
    ensures shortest { All (λ row. IsShortest row.0 row.1) shortest_texts }
    ensures others { All (λ row. ¬ IsShortest row.0 row.1) other_texts }
{}

//! Laws about the definitions.
ghost use Rattle.std.specs.Prelude.{◌≡◌, ◌<◌, ℕ, List, ◌∷◌, ◌++◌, [], All, length, map, replicate, codes, None, Some};
ghost use Rattle.std.specs.Prelude.{Ok, Err};
ghost use Rattle.transyt_io.specs.declared.reader.Line.TheVariants.{Text, End};
ghost use Rattle.transyt_io.specs.declared.reader.ReadStop.TheVariants.{Fault, TooLong};
ghost use Rattle.transyt_io.specs.Streams.{StopTakes, TakesAll, CountsFault, Reads, Rose, TellsLast, Writes};
ghost use Rattle.transyt_io.specs.Streams.{last_count};
ghost use Rattle.transyt_io.specs.Lines.{after_first_line, has_end, is_skipped, lines, whole, words};
ghost use Rattle.transyt_io.specs.Memory.{fails_next, given_count, new_store, new_supply, next_count, refuses_next};
ghost use Rattle.transyt_io.specs.Memory.{stock_after, store_after, store_after_fault, supply_after};
ghost use Rattle.transyt_io.specs.Memory.{supply_after_fault, taken_count};
ghost use Rattle.transyt_io.specs.Reading.{AnswerSays, HasRead, StopSays, new_reading};
ghost use Rattle.transyt_io.specs.WorkedCalls as call;
ghost use Rattle.transyt_io.specs.WorkedEnds as end;
ghost use Rattle.transyt_io.specs.WorkedLines.{worked_inputs, worked_lengths, worked_skips, worked_words};

/// The worked inputs and lines come out as they are written beside the definitions.
pub fn worked_lines()
    ensures inputs { map (λ row. (lines row.0, whole row.0, after_first_line row.0, has_end row.0))
        worked_inputs
        ≡ map (λ row. row.1) worked_inputs }
    ensures lengths { map (λ row. map length (lines (replicate row.0.0 120 ++ row.0.1)))
        worked_lengths
        ≡ map (λ row. row.1) worked_lengths }
    ensures words { map (λ row. (words row.0, is_skipped row.0)) worked_words
        ≡ map (λ row. row.1) worked_words }
    ensures skips { map (λ row. is_skipped (replicate row.0.0 row.0.1)) worked_skips
        ≡ map (λ row. row.1) worked_skips }
{}

/// The worked calls of sources and sinks in memory leave what is written beside the definitions.
pub fn worked_ends()
    ensures counts { map (λ row. next_count row.0) end.counts ≡ map (λ row. row.1) end.counts }
    ensures failures { map (λ row. fails_next row.0.0 row.0.1) end.failures
        ≡ map (λ row. row.1) end.failures }
    ensures new_supply { new_supply (5 ∷ 6 ∷ []) 3 (2 ∷ 4 ∷ []) ≡ end.supply_new }
    ensures supply { supply_after end.a_supply 3 ≡ end.supply_given }
    ensures supply_fault { supply_after_fault end.a_supply ≡ end.supply_failed }
    ensures gifts { given_count end.a_supply 2 ∷ given_count end.a_supply 4 ∷ given_count
        end.supply_given 4 ∷ []
        ≡ 2 ∷ 3 ∷ 2 ∷ [] }
    ensures stock { stock_after end.a_stock 2 ≡ end.stock_given }
    ensures new_store { new_store 4 3 (6 ∷ []) ≡ end.store_with [] 4 0 0 }
    ensures store { store_after (end.store_with (1 ∷ 2 ∷ []) 4 2 9) (8 ∷ 9 ∷ [])
        ≡ end.store_with (1 ∷ 2 ∷ 8 ∷ 9 ∷ []) 2 3 9 }
    ensures store_fault { store_after_fault (end.store_with (1 ∷ 2 ∷ []) 4 2 9)
        ≡ end.store_with (1 ∷ 2 ∷ []) 4 3 10 }
    ensures refusals { map (λ row. refuses_next (end.store_with [] row.0.0 row.0.1 9)) end.refusals
        ≡ map (λ row. row.1) end.refusals }
    ensures takings { map (λ row. taken_count (end.store_with [] row.0.0 2 9) row.0.1) end.takings
        ≡ map (λ row. row.1) end.takings }
{}

/// The worked calls did to their sources and sinks what reads and writes do, and those with one thing wrong didn't.
pub fn worked_calls()
    ensures reads { All (λ row. Reads row.0 row.1 row.2 row.3) call.reads }
    ensures no_reads { All (λ row. ¬ Reads row.0 row.1 row.2 row.3) call.no_reads }
    ensures writes { All (λ row. Writes row.0 row.1 row.2 row.3) call.writes }
    ensures no_writes { All (λ row. ¬ Writes row.0 row.1 row.2 row.3) call.no_writes }
    ensures last { TellsLast (Some 3) call.three × TellsLast (Some 0) call.failed }
    ensures no_last { ¬ TellsLast (Some 2) call.three × ¬ TellsLast (Some 1) call.failed }
    ensures counts { CountsFault 5 7 call.three × CountsFault 5 6 call.failed }
    ensures no_counts { ¬ CountsFault 6 5 call.three × ¬ CountsFault 5 5 call.failed }
{}

/// An input of 4,194,304 bytes may be taken, or a read of it may have failed, and none longer; at one byte more it is
/// too long. The bytes of an input are those that its source gave, and the source is at its end.
pub fn worked_intake()
    ensures fault { (bytes : List ℕ) → length bytes ≡ 4194304 → StopTakes bytes Fault }
    ensures no_fault { (bytes : List ℕ) → length bytes ≡ 4194305 → ¬ StopTakes bytes Fault }
    ensures too_long { (bytes : List ℕ) → length bytes ≡ 4194305 → StopTakes bytes TooLong }
    ensures not_long { (bytes : List ℕ) → length bytes ≡ 4194304 → ¬ StopTakes bytes TooLong }
    ensures taken { (bytes : List ℕ) → length bytes ≡ 4194304
        → TakesAll bytes (Some bytes) (Some []) (Ok tt) }
    ensures taken_over { (bytes : List ℕ) → length bytes ≡ 4194305
        → ¬ TakesAll bytes (Some bytes) (Some []) (Ok tt) }
    ensures other_bytes { ¬ TakesAll (codes "ac") (Some (codes "ab")) (Some []) (Ok tt) }
    ensures some_left { ¬ TakesAll (codes "ab") (Some (codes "abc")) (Some (codes "c")) (Ok tt) }
{}

/// The worked reader took its bytes and handed out its lines, and no other count, line or source goes with it. A line
/// is answered by its text, and the end where all lines were handed out and none is left; a fault stops where all whole
/// lines were handed out.
pub fn worked_reading()
    ensures reader { HasRead (call.reader 4) (Some []) call.taken (codes "c" ∷ []) }
    ensures other_count { ¬ HasRead (call.reader 5) (Some []) call.taken (codes "c" ∷ []) }
    ensures other_line { ¬ HasRead (call.reader 4) (Some []) call.taken (codes "d" ∷ []) }
    ensures source_left { ¬ HasRead (call.reader 4) (Some (codes "xy")) call.taken
        (codes "c" ∷ []) }
    ensures handed_out { AnswerSays (call.handing (Some (codes "ab"))) (Some (codes "xy"))
        (codes "ab" ++ 10 ∷ codes "cd") [] Text }
    ensures not_handed_out { ¬ AnswerSays (call.handing None) (Some (codes "xy"))
        (codes "ab" ++ 10 ∷ codes "cd") []
        Text }
    ensures ended { AnswerSays new_reading (Some []) call.taken (codes "c" ∷ codes "ab" ∷ []) End }
    ensures not_ended { ¬ AnswerSays new_reading (Some []) call.taken (codes "c" ∷ []) End }
    ensures some_left { ¬ AnswerSays new_reading (Some (codes "e")) call.taken
        (codes "c" ∷ codes "ab" ∷ []) End }
    ensures fault { StopSays call.taken (codes "c" ∷ []) Fault }
    ensures no_fault { ¬ StopSays call.taken (codes "c" ∷ codes "ab" ∷ []) Fault }
{}

/// A count of faults rose exactly where it is higher after than before, or where it stands at its last value.
#[tactic(auto, using(crate::proofs::Worked::no_rise))]
pub fn counts_rise()
    ensures rise { (before after : ℕ) → before < after → Rose before after }
    ensures last { (before : ℕ) → Rose before last_count }
    ensures no_rise { (before : ℕ) → before < last_count → ¬ Rose before before }
{}

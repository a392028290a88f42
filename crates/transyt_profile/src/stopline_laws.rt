//! Laws about the definitions.

ghost use Rattle.std.specs.Prelude.{◌≡◌, ℕ, List, [], ◌∷◌, All, map, replicate};
ghost use Rattle.transyt_profile.specs.StopLine.{arrivals_of, sum_at_places, sum_back, IsQueue, outs, queues};
ghost use Rattle.transyt_profile.specs.StopLine.{stopped_of};
ghost use Rattle.transyt_profile.specs.WorkedCycles.{
  crowd,
  cut_crowd,
  green,
  some_traffic,
  worked_queues,
  worked_sums,
};
ghost use Rattle.transyt_profile.specs.WorkedQueues.{queues_by_facts};

/// The worked cycles come out as they are written beside the definitions.
#[tactic(auto, using(crate::proofs::Examples::sums, crate::proofs::Examples::worked))]
pub fn worked_cycles()
    ensures cut { arrivals_of crowd green ≡ cut_crowd }
    ensures uncut { arrivals_of some_traffic green ≡ some_traffic }
    ensures no_go { arrivals_of crowd (replicate 6 0) ≡ replicate 6 0 }
    ensures places { map (λ row. sum_at_places crowd row.0.0 row.0.1) worked_sums
        ≡ map (λ row. row.1) worked_sums }
    ensures sums { map (λ row. sum_back crowd row.0.0 row.0.1) worked_sums
        ≡ map (λ row. row.1) worked_sums }
    ensures queues { map (λ row. (
      queues row.0 green,
      outs row.0 green,
      stopped_of row.0
          (queues row.0 green),
    ))
        worked_queues ≡ map (λ row. row.1) worked_queues }
    ensures stops { stopped_of (7 ∷ 5 ∷ 3 ∷ []) (0 ∷ 1 ∷ 2 ∷ []) ≡ 8 }
{}

/// The two facts of `IsQueue` are true of one number alone.
#[tactic(auto, using(crate::proofs::Examples::only_queue))]
pub fn one_queue()
    ensures { (arrivals go : List ℕ) (i queue other : ℕ) → IsQueue arrivals go i queue
        → IsQueue arrivals go i other → queue ≡ other }
{}

/// The two facts of `IsQueue` are true of the worked queues.
pub fn worked_facts_of_queues()
    ensures { All (λ row. IsQueue row.0 row.1 0 row.2) queues_by_facts }
{}

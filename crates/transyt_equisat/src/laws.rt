//! Laws about the definitions.
ghost use Rattle.std.specs.Prelude.{◌≡◌, ◌∷◌, [], map, All};
ghost use Rattle.transyt_parts.specs.Made.{new_stage};
ghost use Rattle.transyt_net.specs.Parts.{node_of};
ghost use Rattle.transyt_equisat.specs.Degrees.{is_above, AtMost, IsSame};
ghost use Rattle.transyt_equisat.specs.Peaks.{IsPlanOf, greens_of};
ghost use Rattle.transyt_equisat.specs.Balance.{all_greens, balance, least_greens, need_at, timed, IsBalanced};
ghost use Rattle.transyt_equisat.specs.WorkedBalances.{balance_of_21, balance_of_7, balance_without_traffic};
ghost use Rattle.transyt_equisat.specs.WorkedBalances.{empty_town, quiet_town, greens_in_ten, share, two_stages, worked_town};
ghost use Rattle.transyt_equisat.specs.WorkedBalances.{even_town, three_without_traffic, balance_of_even};
ghost use Rattle.transyt_equisat.specs.WorkedBalances.{equal_town, four_at_peak, nine_at_peak, balance_by_four, balance_by_nine};
ghost use Rattle.transyt_equisat.specs.WorkedPeaks.{fraction, compared, stages_of_21, stages_of_7, unplanned};
ghost use Rattle.transyt_equisat.specs.WorkedPeaks.{tight, tight_town, tight_node, worthless, not_least};

/// The worked balances come out as they are written beside the definitions: of two links at the peak the first in card
/// order is told, whichever that is. So do the greens that fill a cycle.
pub fn worked_balances()
    ensures first { balance worked_town 0 ≡ balance_of_21 }
    ensures second { balance worked_town 1 ≡ balance_of_7 }
    ensures empty { balance empty_town 1 ≡ balance_without_traffic }
    ensures quiet { balance quiet_town 1 ≡ balance_without_traffic }
    ensures three { balance quiet_town 0 ≡ three_without_traffic }
    ensures even { balance even_town 0 ≡ balance_of_even }
    ensures four_first { balance (equal_town (four_at_peak ∷ nine_at_peak ∷ [])) 0
        ≡ balance_by_four }
    ensures nine_first { balance (equal_town (nine_at_peak ∷ four_at_peak ∷ [])) 0
        ≡ balance_by_nine }
    ensures greens { all_greens two_stages 10 ≡ greens_in_ten }
    ensures no_room { all_greens two_stages 5 ≡ [] }
{}

/// Worked fractions are compared, and a plan of node 21 is one of its stages; those that are wrong in one thing aren't.
/// The least greens and the needs of its stages come out where no green in the cycle serves.
#[tactic(auto, using(crate::proofs::WorkedPeaks::planned))]
pub fn worked_peaks()
    ensures above { map (λ row. is_above row.0 row.1) compared ≡ map (λ row. row.2) compared }
    ensures at_most { AtMost (fraction 6 14) (fraction 3 7) }
    ensures not_at_most { AtMost (fraction 7 14) (fraction 3 7) → ⊥ }
    ensures same { IsSame (fraction 6 14) (fraction 3 7) }
    ensures others { (IsSame (fraction 5 14) (fraction 3 7) → ⊥)
        × (IsSame (fraction 7 14) (fraction 3 7) → ⊥) }
    ensures planned { IsPlanOf 18 (stages_of_21 2 8 15) (stages_of_21 2 10 16) }
    ensures unplanned { All (λ plan. IsPlanOf 18 (stages_of_21 2 8 15) plan → ⊥) unplanned }
    ensures greens { greens_of 18 (stages_of_7 5 16) ≡ 8 ∷ 6 ∷ [] }
    ensures least { least_greens worked_town (node_of worked_town 0) (fraction 1 999)
        ≡ 18 ∷ 4 ∷ 18 ∷ [] }
    ensures need { map (need_at worked_town (node_of worked_town 0) (fraction 1 999))
        (0 ∷ 1 ∷ 2 ∷ [])
        ≡ 18 ∷ 4 ∷ 18 ∷ [] }
    ensures timed { timed two_stages (share 7 6 9 ∷ []) ≡ new_stage 7 1 2 ∷ new_stage 0 1 2 ∷ [] }
{}

/// An answer is worth what is said of a balance, and answers that are wrong in one thing aren't.
#[tactic(auto, using(crate::proofs::WorkedPeaks::tight_is, crate::proofs::WorkedPeaks::none_is_balanced, crate::proofs::WorkedPeaks::another_is_less))]
pub fn worked_worth()
    ensures balanced { IsBalanced tight_town tight_node (tight 3110 6220 4 5 3 3) }
    ensures worthless { All (λ g. IsBalanced tight_town tight_node g → ⊥) worthless }
    ensures not_least { IsBalanced worked_town (node_of worked_town 1) not_least → ⊥ }
{}

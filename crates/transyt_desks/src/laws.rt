//! Laws about the definitions.

ghost use Rattle.std.specs.Prelude.{◌≡◌, map, None, Some};
ghost use Rattle.transyt_session.specs.WorkedSessions.{in_trial};
ghost use Rattle.transyt_climb.specs.WorkedTurns.{idle, junctions_session};
ghost use Rattle.transyt_desks.specs.Desks.{AreAligned, AreAlike, desk_zero, opened_desks, with_zero};
ghost use Rattle.transyt_desks.specs.Stretches.{AreTriesOf};
ghost use Rattle.transyt_desks.specs.Rounds.{is_took, places_of, room_of, turns_of, up_to};
ghost use Rattle.transyt_desks.specs.WorkedDesks.{idle_tries, seven_left, trial_first, trial_second, unlike};
ghost use Rattle.transyt_desks.specs.WorkedRounds.{three_desks, worked_places, worked_rooms, worked_rounds};
ghost use Rattle.transyt_desks.specs.WorkedRounds.{worked_tooks};

/// The worked rounds and desks come out as they are written beside the definitions.
#[tactic(auto, using(crate::proofs::WorkedLaws::rounds, crate::proofs::WorkedLaws::are_aligned, crate::proofs::WorkedLaws::step_round))]
pub fn worked_rounds()
    ensures rooms { map (λ row. room_of row.0 row.1) worked_rooms
        ≡ map (λ row. row.2) worked_rooms }
    ensures places { map (λ row. places_of row.0 row.1) worked_places
        ≡ map (λ row. row.2) worked_places }
    ensures rounds { map (λ row. turns_of row.0 row.1) worked_rounds
        ≡ map (λ row. row.2) worked_rounds }
    ensures step { turns_of 8 seven_left ≡ 2 }
    ensures tooks { map (λ row. is_took row.0) worked_tooks ≡ map (λ row. row.1) worked_tooks }
    ensures first { up_to (Some 2) 7 ≡ 3 }
    ensures none { up_to None 7 ≡ 7 }
    ensures desks { opened_desks junctions_session 3 ≡ three_desks }
    ensures zero { desk_zero three_desks ≡ junctions_session }
    ensures with_zero { with_zero three_desks in_trial ≡ trial_first }
    ensures aligned { AreAligned three_desks }
{}

/// Worked desks stand for networks of one shape, and not for one network; others not even for one shape. Worked tries are
/// those of the moves from the third on, and not from the second on.
#[tactic(auto, using(crate::proofs::WorkedResultLaws::tries, crate::proofs::WorkedResultLaws::not_earlier))]
pub fn worked_desks()
    ensures not_aligned { AreAligned trial_second → ⊥ }
    ensures alike_in_trial { AreAlike trial_first }
    ensures unlike { AreAlike unlike → ⊥ }
    ensures tries { AreTriesOf idle 2 4 idle_tries }
    ensures not_earlier { AreTriesOf idle 1 4 idle_tries → ⊥ }
{}

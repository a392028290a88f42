//! The worked session, computed from the definitions.

ghost use Rattle.std.specs.Prelude.{◌≡◌, ◌+◌, map, None};
ghost use Rattle.transyt_net.specs.declared.edit.Edit.TheVariants.{Offset, Change};
ghost use Rattle.transyt_sweep.specs.Sweeps.{index};
ghost use Rattle.transyt_track.specs.WorkedWork.{junctions};
ghost use Rattle.transyt_session.specs.declared.answers.Tried.TheVariants.{Barred, Index};
ghost use Rattle.transyt_session.specs.Session.{opened, edited, reply_to, tried_below, try_of, trial_of, back_of, keep_of, credited, standing_for, lowered, lower_index};
ghost use Rattle.transyt_session.specs.WorkedSessions.{shifted, begun, in_trial, taken_back, kept, worked_replies};

/// A worked session after each call, and the answers to edits.
#[tactic(auto, using(crate::proofs::WorkedLaws::trial, crate::proofs::WorkedLaws::replies, crate::proofs::WorkedLaws::tried, crate::proofs::WorkedLaws::at_bound, crate::proofs::WorkedLaws::below_bound))]
pub fn worked_session()
    ensures trial { edited (Offset 21 9) (trial_of begun) ≡ in_trial }
    ensures second_trial { trial_of in_trial ≡ in_trial }
    ensures refused { edited (Offset 21 15) in_trial ≡ in_trial }
    ensures back { back_of in_trial ≡ taken_back }
    ensures keep { keep_of in_trial ≡ kept }
    ensures no_trial { (back_of taken_back ≡ taken_back) × (keep_of kept ≡ kept) }
    ensures open { opened shifted ≡ record { net = shifted; before = None; work = 0 } }
    ensures credit { credited 3 in_trial ≡ record in_trial { work = 14 } }
    ensures stand { standing_for shifted taken_back ≡ kept }
    ensures stand_in_trial { standing_for junctions in_trial ≡ taken_back }
    ensures replies { map (λ row. reply_to junctions row.0) worked_replies
        ≡ map (λ row. row.1) worked_replies }
    ensures tried { try_of junctions (Offset 21 9) ≡ Index (index shifted) 6 }
    ensures at_bound { tried_below (index shifted) (Offset 21 9) begun ≡ begun }
    ensures below_bound { tried_below (index shifted + 1) (Offset 21 9) begun
        ≡ record begun { net = shifted } }
    ensures refused_try { tried_below 5 (Offset 21 15) in_trial ≡ kept }
    ensures refused_look { lowered (Offset 21 15) in_trial ≡ kept }
    ensures refused_found { lower_index junctions (Offset 21 15) ≡ None }
    ensures barred { try_of junctions (Change 21 2 4) ≡ Barred }
{}

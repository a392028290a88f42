//! Laws of the turns of a climber.

ghost use Rattle.std.specs.Prelude.{◌≡◌, ℕ, true, false, None, List, [], ◌++◌};
ghost use Rattle.transyt_net.specs.declared.edit.Edit.TheVariants.{Offset};
ghost use Rattle.transyt_net.specs.Parts.{Network};
ghost use Rattle.transyt_sweep.specs.Climb.{climb, Climb, Step};
ghost use Rattle.transyt_session.specs.Session.{SessionValue};
ghost use Rattle.transyt_climb.specs.declared.turn.Turn.{Turn};
ghost use Rattle.transyt_climb.specs.declared.turn.Turn.TheVariants.{Took, Local, Budget};
ghost use Rattle.transyt_climb.specs.Turns.{Machine, machine, noted, answer_of, certified, found_at};
ghost use Rattle.transyt_climb.specs.Turns.{is_end, is_local, started, step_then, turns};
ghost use Rattle.transyt_climb.specs.Way.{AreClimb, IsLocal, IsUnderWay, IsOver, IsRound};
ghost use Rattle.transyt_climb.specs.WorkedTurns.{idle, idle_session, junctions_session, on_way, way, gone_round, used_up};
ghost use Rattle.transyt_climb.specs.WorkedTurns.{three_session, before_step, by_last};

/// The turns of a climber, from its start to the first that answers Local or Budget, are the climb of the network.
pub fn rule_of_turns()
    ensures { (budget : ℕ) (s : SessionValue) (n : ℕ)
        → is_end (answer_of (turns n (started budget s))) ≡ true
        → AreClimb (climb s.net 0 budget) n (started budget s) }
{}

/// A climb that ends as Local ends at a network of which no listed move is allowed and lowers the index.
pub fn rule_of_local()
    ensures { (net : Network) (place left : ℕ) → (climb net place left).local ≡ true
        → IsLocal (climb net place left).net }
{}

/// A climb goes its way by rounds of any number of turns: it is under way at the start, a round takes its last answer's
/// step, and the round that answers Local or Budget ends it.
pub fn rule_of_way()
    ensures starts { (budget : ℕ) (s : SessionValue) → s.before ≡ None
        → IsUnderWay (climb s.net 0 budget) s.work [] (started budget s) }
    ensures goes_on { (whole : Climb) (work : ℕ) (done : List Step)
        (m after : Machine) (count : ℕ) (last : Turn)
        → IsUnderWay whole work done m → IsRound m after count last
        → IsUnderWay whole work (done ++ step_then last []) after }
    ensures ends { (whole : Climb) (work : ℕ) (done : List Step)
        (m after : Machine) (count : ℕ) (last : Turn)
        → IsUnderWay whole work done m → IsRound m after count last → is_end last ≡ true
        → IsOver whole work done (is_local last) after }
{}

/// Worked turns: the counters after a look, the two ends, turns that pass round the end of the list, one that takes a
/// step, an equal index that none takes, and a certified place.
#[tactic(auto, using(crate::proofs::WorkedLaws::three, crate::proofs::WorkedLaws::took, crate::proofs::WorkedLaws::tied, crate::proofs::WorkedLaws::certificate))]
pub fn worked_turns()
    ensures noted { noted false (on_way 9)
        ≡ record { place = 5; since = 2; looked = 4; budget = 9; count = 6 } }
    ensures noted_step { noted true (on_way 9)
        ≡ record { place = 4; since = 0; looked = 4; budget = 9; count = 6 } }
    ensures local { answer_of (machine gone_round idle_session) ≡ Local }
    ensures budget { answer_of (machine used_up idle_session) ≡ Budget }
    ensures turns { turns 3 (way 9)
        ≡ machine (record { place = 1; since = 4; looked = 6; budget = 9; count = 6 })
        idle_session }
    ensures took { answer_of (machine before_step three_session) ≡ Took 0 (Offset 21 8) 554272112 }
    ensures tied { found_at idle 0 ≡ None }
    ensures certified { certified 0 junctions_session ≡ record junctions_session { work = 11 } }
{}

/// No move of a network without links lowers its index; of another only the last does, so that it isn't at its end.
#[tactic(auto, using(crate::proofs::WorkedLaws::local, crate::proofs::WorkedLaws::not_local))]
pub fn worked_local()
    ensures local { IsLocal idle }
    ensures not_local { IsLocal by_last → ⊥ }
{}

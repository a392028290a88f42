//! Worked edits and calls of a draft.
ghost use Rattle.std.specs.Prelude.{◌≡◌, ◌↔◌, ◌<◌, ◌≤◌, ℕ, length, [], ◌∷◌, map, None, Some, IsTrue};
ghost use Rattle.transyt_net.specs.declared.edit.Edit.{Edit};
ghost use Rattle.transyt_net.specs.Parts.{Network};
ghost use Rattle.transyt_net.specs.Valid.{rule_at, IsSound, IsValid};
ghost use Rattle.transyt_net.specs.Faults.{node_fault, with_node, stage_fault, with_stage, link_fault, with_link, feed_fault, with_feed, rule_fault, with_rule, climb_fault, with_plan, empty};
ghost use Rattle.transyt_parts.specs.Parts.{LinkValue, PlanValue};
ghost use Rattle.transyt_parts.specs.Ranges.{IsWithin, most_sizes};
ghost use Rattle.transyt_parts.specs.Valid.{is_frame};
ghost use Rattle.transyt_parts.specs.declared.frame.Frame.{Frame};
ghost use Rattle.transyt_parts.specs.declared.node.Stage.{Stage};
ghost use Rattle.transyt_parts.specs.declared.link.Feed.{Feed};
ghost use Rattle.transyt_parts.specs.declared.link.GiveWay.{GiveWay};
ghost use Rattle.transyt_net.specs.EditFaults.{edit_fault};
ghost use Rattle.transyt_net.specs.Edits.{with_edit};
ghost use Rattle.transyt_net.specs.There.{HasLink, IsThere};
ghost use Rattle.transyt_net.specs.WorkedNets.{town};
ghost use Rattle.transyt_net.specs.WorkedNets as net;
ghost use Rattle.transyt_net.specs.WorkedFaults as fault;
ghost use Rattle.transyt_parts.specs.Made.{new_feed, new_rule};

/// An edit of a valid network has no fault exactly where what it names is there and the network
/// with it is valid.
#[tactic(auto, using(crate::proofs::AllowedLaws::allowed_exactly))]
pub fn edits_are_judged()
    ensures { (net : Network) (e : Edit) → IsValid net
        → edit_fault net e ≡ None ↔ IsThere net e × IsValid (with_edit net e) }
{}

/// A frame's numbers are in their ranges exactly where the empty draft with it is sound. A call of a
/// sound draft has no fault exactly where the draft after it is sound; a feed and a rule where their
/// link is there too, and the link has no rule yet.
#[tactic(auto, using(crate::proofs::DraftLaws::frame_exactly, crate::proofs::DraftLaws::node_exactly, crate::proofs::DraftLaws::stage_exactly, crate::proofs::DraftLaws::link_exactly, crate::proofs::DraftLaws::feed_exactly, crate::proofs::DraftLaws::rule_exactly, crate::proofs::DraftLaws::plan_exactly))]
pub fn drafts_are_judged()
    ensures frame { (f : Frame) → IsTrue (is_frame f) ↔ IsSound (empty f) }
    ensures node { (d : Network) (number offset : ℕ) → IsSound d
        → node_fault d number offset ≡ None ↔ IsSound (with_node d number offset) }
    ensures stage { (d : Network) (s : Stage) → IsSound d → 0 < length d.nodes
        → stage_fault d s ≡ None ↔ IsSound (with_stage d s) }
    ensures link { (d : Network) (l : LinkValue) → IsSound d
        → (1 ≤ length l.stages) × (length l.stages ≤ 8) → l.feeds ≡ [] → l.gives_way ≡ None
        → link_fault d l ≡ None ↔ IsSound (with_link d l) }
    ensures feed { (d : Network) (link : ℕ) (f : Feed) → IsSound d
        → feed_fault d link f ≡ None ↔ HasLink d link × IsSound (with_feed d link f) }
    ensures rule { (d : Network) (link : ℕ) (r : GiveWay) → IsSound d
        → rule_fault d link r ≡ None
        ↔ HasLink d link × (rule_at d.links link ≡ None) × IsSound (with_rule d link r) }
    ensures plan { (d : Network) (p : PlanValue) → IsSound d
        → IsWithin 1 most_sizes (length p.sizes)
        → climb_fault d p ≡ None ↔ IsSound (with_plan d p) }
{}

/// The worked values come out as they are written beside the definitions; a network in which a link runs in no stage
/// isn't sound.
#[tactic(auto, using(crate::proofs::Worked::networks, crate::proofs::Worked::inverses, crate::proofs::Worked::edits, crate::proofs::Worked::nodes, crate::proofs::Worked::links, crate::proofs::Worked::others, crate::proofs::Worked::numbers, crate::proofs::Worked::places, crate::proofs::Worked::feeds, crate::proofs::Worked::rules, crate::proofs::Worked::stageless))]
pub fn worked_networks()
    ensures networks { map (λ r. r.0) net.networks ≡ map (λ r. r.1) net.networks }
    ensures inverses { map (λ r. r.0) net.inverses ≡ map (λ r. r.1) net.inverses }
    ensures edits { map (λ r. edit_fault town r.0) fault.edits ≡ map (λ r. r.1) fault.edits }
    ensures nodes { map (λ r. r.0) fault.nodes ≡ map (λ r. r.1) fault.nodes }
    ensures links { map (λ r. r.0) fault.links ≡ map (λ r. r.1) fault.links }
    ensures others { map (λ r. r.0) fault.others ≡ map (λ r. r.1) fault.others }
    ensures numbers { fault.numbers
        ≡ 598611 ∷ 138888888 ∷ 0 ∷ 1 ∷ 2 ∷ 0 ∷ 3 ∷ 2 ∷ 0 ∷ 7 ∷ 4 ∷ 17 ∷ 613 ∷ [] }
    ensures places { fault.places ≡ Some 0 ∷ Some 2 ∷ None ∷ [] }
    ensures feeds { fault.feeds ≡ (new_feed 9 77 61 ∷ new_feed 5 311 23 ∷ []) ∷ [] ∷ [] ∷ [] }
    ensures rules { fault.rules ≡ Some (new_rule 9 35) ∷ None ∷ None ∷ [] }
    ensures stageless { IsSound fault.stageless → ⊥ }
{}

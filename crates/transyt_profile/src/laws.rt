//! Laws about the definitions.

ghost use Rattle.std.specs.Prelude.{◌≡◌, ◌∷◌, [], map};
ghost use Rattle.transyt_profile.specs.Profile.{added, folded, share_of, shared, uniform};
ghost use Rattle.transyt_profile.specs.WorkedProfiles.{
  both_links,
  one_link,
  other_link,
  part_of_one_link,
  two_turns,
  worked_shares,
};

/// The worked profiles come out as they are written beside the definitions.
pub fn worked_profiles()
    ensures uniform { uniform 3 37 ≡ 37 ∷ 37 ∷ 37 ∷ [] }
    ensures added { added one_link other_link ≡ both_links }
    ensures folded { folded 5 two_turns ≡ both_links }
    ensures shares { map (λ row. share_of row.0.0 row.0.1 row.0.2) worked_shares
        ≡ map (λ row. row.1) worked_shares }
    ensures shared { shared 311 742 one_link ≡ part_of_one_link }
{}

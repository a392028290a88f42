//! Laws about the definitions.
ghost use Rattle.std.specs.Prelude.{◌≡◌, ◌/◌, ◌∷◌, [], map};
ghost use Rattle.transyt_make.specs.Draws.{after_draws};
ghost use Rattle.transyt_make.specs.Made.{beside, made, made_node, made_link};
ghost use Rattle.transyt_make.specs.WorkedTowns.{worked_draws, town_of_one, nodes_of_ten, links_of_ten};
ghost use Rattle.transyt_make.specs.WorkedTowns.{links_of_sixteen, neighbours_in_sixteen};

/// The draws and towns that are written beside the definitions come out of them. Places count from 0.
#[tactic(auto, using(crate::proofs::Worked::draws_of_one, crate::proofs::Worked::one_is, crate::proofs::Worked::nodes_are, crate::proofs::Worked::links_are, crate::proofs::Worked::far_links_are))]
pub fn worked_towns()
    ensures draws { map (λ k. after_draws 1 k / 65536) (1 ∷ 2 ∷ 3 ∷ 4 ∷ 5 ∷ 6 ∷ []) ≡ worked_draws }
    ensures one { made 1 1 ≡ town_of_one }
    ensures nodes { map (made_node 999999999) (7 ∷ 9 ∷ []) ≡ nodes_of_ten }
    ensures links { map (made_link 999999999 10) (1 ∷ 7 ∷ 29 ∷ 32 ∷ 36 ∷ 38 ∷ []) ≡ links_of_ten }
    ensures far_links { map (made_link 999999999 16) (31 ∷ 62 ∷ []) ≡ links_of_sixteen }
    ensures neighbours { map (λ row. beside 16 row.0.0 row.0.1) neighbours_in_sixteen
        ≡ map (λ row. row.1) neighbours_in_sixteen }
{}

//! Laws about the definitions.
ghost use Rattle.std.specs.Prelude.{◌≡◌, ℕ, List, [], ◌∷◌, ◌++◌, length, map, Err};
ghost use Rattle.transyt_io.specs.Lines.{lines};
ghost use Rattle.transyt_net.specs.Parts.{Network};
ghost use Rattle.transyt_net.specs.Valid.{IsValid};
ghost use Rattle.transyt_syntax.specs.declared.code.Code.TheVariants as c;
ghost use Rattle.transyt_deck.specs.declared.reader.CardStop.TheVariants as stop;
ghost use Rattle.transyt_deck.specs.Cards.{deck_cards, deck_text};
ghost use Rattle.transyt_deck.specs.Deck.{deck, code, next, start, Complete, Refused, cut_of, finished, Answers};
ghost use Rattle.transyt_deck.specs.WorkedCodes.{coded, each_card, numbered, places};
ghost use Rattle.transyt_deck.specs.WorkedTown.{town, town_net, town_text};
ghost use Rattle.transyt_deck.specs.WorkedVillage.{bytes_of, cuts, finishes, village, village_net};

/// The deck text of a valid network reads back as that network, with END at its last line.
#[tactic(auto, using(crate::proofs::ReadBack::deck_read_back))]
pub fn text_reads_back()
    ensures { (net : Network) → IsValid net
        → deck (lines (deck_text net)) ≡ Complete (length (deck_cards net)) net }
{}

/// The deck of lines and one more is what the one more makes of their deck: so a reader that stands for the deck of
/// lines stands for that of these lines and the line that it takes.
#[tactic(auto, using(crate::proofs::Adding::deck_more))]
pub fn line_by_line()
    ensures { (before : List (List ℕ)) (line : List ℕ)
        → deck (before ++ line ∷ []) ≡ next (deck before) line }
{}

/// The worked decks, in which no number is neutral, have the networks that are written beside the definitions;
/// each card in each place, each line of `coded`, the text of a network, the cuts, and what a reader finishes with, come
/// out as they are written there; a reader is out of memory only where the line that it took has no code.
#[tactic(auto, using(crate::proofs::Worked::text_is))]
pub fn worked_decks()
    ensures town { deck town ≡ Complete 34 town_net }
    ensures places { map (λ row. map (λ card. numbered (code row.0 card)) each_card) places
        ≡ map (λ row. row.1) places }
    ensures coded { map (λ row. numbered (code row.0 row.1)) coded ≡ map (λ row. row.2) coded }
    ensures village { deck village ≡ Complete 6 village_net }
    ensures text { deck_text town_net ≡ bytes_of town_text }
    ensures cuts { map (λ row. cut_of row.0) cuts ≡ map (λ row. row.1) cuts }
    ensures finishes { map (λ row. finished (deck row.0)) finishes ≡ map (λ row. row.1) finishes }
    ensures memory { Answers start (Err stop.Memory) }
    ensures no_memory { Answers (Refused 2 c.OutOfPlace) (Err stop.Memory) → ⊥ }
{}

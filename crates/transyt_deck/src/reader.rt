//! Cards, taken line by line.
ghost use Rattle.std.specs.Prelude.{◌≡◌, ◌<◌, ℕ, true, IsTrue, OnOk, OnErr};
ghost use Rattle.std.specs.Option.{option_map};
ghost use Rattle.transyt_deck.specs.Deck.{start, next, line_count, network_in, Open, Answers, goes_on, may_finish};
ghost use Rattle.transyt_deck.specs.Deck.{finished};
ghost use Rattle.transyt_deck.specs.State.{form_of};
ghost use Rattle.transyt_deck.specs.declared.state.State.{State};

use crate::state::{Part, State, Stop, take_line};
use std::alloc::Global;
use std::marker::Model;
use transyt_net::{Draft, Net};
use transyt_syntax::{Code, Refusal};

/// Why a line isn't taken.
#[derive(Drop)]
pub enum CardStop {
    /// The line with this number, from 1, is refused with this code.
    Refused {
        /// The number of the line.
        card: u32,
        /// Its first code, with what was found.
        code: Refusal,
    },
    /// Out of memory. Of `CardReader::take` it comes only at a line that has no code.
    Memory,
}

/// How a line was taken.
#[derive(Clone, Copy, PartialEq, Eq)]
pub enum Progress {
    /// More lines are awaited.
    More,
    /// The line is an accepted END.
    Complete,
}

/// Takes the lines of a deck, one at a time. A contract sees the deck of the lines taken, and whether the next may be
/// taken.
#[derive(Drop)]
pub struct CardReader {
    alloc: Global,
    taken: u32,
    live: bool,
    state: State,
}

impl Model for CardReader {
    ghost use Rattle.std.specs.Prelude.{◌≡◌, ◌≤◌, true};
    ghost use Rattle.transyt_deck.specs.Deck.{deck_at, is_open, ReaderValue};
    ghost use Rattle.transyt_deck.specs.Adds.{IsTiedState};

    ghost Value = { ReaderValue };

    ghost view = { λ r. record { deck = deck_at r.taken r.state; live = r.live } };

    ghost invariant = { λ r.
        IsTiedState r.state
        × (r.live ≡ true → is_open (deck_at r.taken r.state) ≡ true)
        × (r.taken ≤ 4294967294) };
}

impl CardReader {
    /// A live reader that has taken no line. It takes no memory; `alloc` serves the later calls.
    pub fn new(alloc: Global) -> CardReader
        ensures { result ≡ record { deck = start; live = true } }
    {
        CardReader {
            alloc,
            taken: 0,
            live: true,
            state: State::Start,
        }
    }

    /// Whether the next line may be taken: no END was accepted and nothing was refused.
    pub fn is_live(&self) -> bool
        ensures { result ≡ self.now.live }
    {
        self.live
    }

    /// How many lines were taken, skipped lines among them.
    pub fn taken(&self) -> u32
        ensures { result ≡ line_count self.now.deck }
    {
        self.taken
    }

    /// The form of the LINK cards, 1 or 2.
    pub fn form(&self) -> u32
        ensures { (count : ℕ) (state : State) → self.now.deck ≡ Open count state
            → result ≡ form_of state }
    {
        self.state.form()
    }

    /// The network so far, from an accepted CYCLE card on.
    pub fn draft(&self) -> Option<&Draft>
        ensures { option_map (λ draft. draft.now) result ≡ network_in self.now.deck }
    {
        match &self.state {
            State::Making { draft, .. } => Some(draft),
            _ => None,
        }
    }

    /// Takes the next line, or refuses it with its number and the first code that holds of it after the lines before
    /// it. After `Complete` or an error the reader is no longer live; an error changes nothing else.
    pub fn take(&mut self, line: &[u8]) -> Result<Progress, CardStop>
        requires live { IsTrue self.old.live }
        requires few { line_count self.old.deck < 4294967294 }
        ensures answer { Answers (next self.old.deck line.now) result }
        ensures taken { OnOk result (self.new.deck ≡ next self.old.deck line.now) }
        ensures unchanged { OnErr result (self.new.deck ≡ self.old.deck) }
        ensures live { self.new.live ≡ goes_on result }
    {
        let number = self.taken + 1;
        self.live = false;
        match take_line(self.alloc, &mut self.state, line) {
            Ok(()) => {}
            Err(Stop::Code(code)) => return Err(CardStop::Refused { card: number, code }),
            Err(Stop::Memory) => return Err(CardStop::Memory),
        }
        self.taken = number;
        if self.state.is_ended() {
            return Ok(Progress::Complete);
        }
        self.live = true;
        Ok(Progress::More)
    }

    /// The network where END was accepted; else code 21 at the number of lines taken plus 1. No line was refused
    /// before. It takes no memory.
    pub fn finish(self) -> Result<Net, CardStop>
        requires whole { IsTrue (may_finish self) }
        ensures { result ≡ finished self.deck }
    {
        match self.state {
            State::Making {
                part: Part::End,
                draft,
                ..
            } => Ok(draft.close()),
            state => {
                drop(state);
                Err(CardStop::Refused {
                    card: self.taken + 1,
                    code: Refusal::from(Code::NoEnd),
                })
            }
        }
    }
}

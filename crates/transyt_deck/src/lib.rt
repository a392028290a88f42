//! Cards and the deck that they make: a network, read line by line.
//!
//! A list of lines means `deck` (`specs/Deck`): refused at the first line with a code, complete at
//! an accepted END with the network of the cards before it, or open. It is the fold of one step, `next`, over the state
//! that the cards have come to (`State` of `specs/State`, with each card's place, faults and effect in one table,
//! `added`); the card of a line is read by the table of cards (`specs/Cards`). `CardReader` is that step: a contract
//! sees the deck of the lines that it has taken. `cut_deck` reads a deck from the front of bytes (`cut_of` of
//! `specs/Deck`).
//!
//! The other way round, `print_deck` writes a network as its deck text (`deck_text` of `specs/Cards`), which reads back
//! as the same network (`text_reads_back`). That it wrote it is said by `Prints` of `transyt_io`, whose forms put its
//! lines.
//!
//! Cards, their places and all codes are this project's own.
//!
//! It is one machine. `specs/Cards` has the cards, their keywords and counts, and the deck text. `specs/State` has
//! the state of a deck and one step of it, by cases. `specs/Deck` has the deck as the fold of that step. The
//! reader's value is that state.
#![tactic(auto)]

mod card;
mod card_line;
mod cut;
mod deck_text;
mod laws;
mod reader;
mod so_far;
mod state;

pub use card::{Card, is_card};
pub use cut::{Cut, cut_deck};
pub use deck_text::print_deck;
pub use laws::{line_by_line, text_reads_back, worked_decks};
pub use reader::{CardReader, CardStop, Progress};
pub use so_far::check_plan;
pub use state::{Part, State};

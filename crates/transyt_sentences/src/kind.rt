//! Cards and commands.

use transyt_commands::is_command;
use transyt_deck::is_card;

/// What a line is by its place: a card up to END, and a command after it.
#[derive(Clone, Copy)]
pub(crate) enum Kind {
    /// A card.
    Card,
    /// A command.
    Command,
}

impl Kind {
    /// What a line of the kind is called.
    pub(crate) fn name(self) -> &'static str {
        match self {
            Kind::Card => "card",
            Kind::Command => "command",
        }
    }

    /// The other kind.
    pub(crate) fn other(self) -> Kind {
        match self {
            Kind::Card => Kind::Command,
            Kind::Command => Kind::Card,
        }
    }

    /// Whether a word is a keyword of the kind.
    pub(crate) fn has(self, word: &[u8]) -> bool {
        match self {
            Kind::Card => is_card(word),
            Kind::Command => is_command(word),
        }
    }

    /// What is said after a keyword of the kind that stands in the wrong part of an input.
    pub(crate) fn where_it_stands(self) -> &'static str {
        match self {
            Kind::Card => " is a card: cards stand before END",
            Kind::Command => " is a command: commands stand after END",
        }
    }
}

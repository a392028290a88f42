//! The case that a word is handed.

use std::alloc::Global;
use std::marker::Model;
use transyt_deck::Cut;

/// An input as it was read: the deck at its front and the bytes after END's line, its table; with the runtime, whose
/// threads climb at once, and the allocator.
///
/// A contract sees the network of the deck, the number of END's line and the table.
#[derive(Drop)]
pub struct Case<'a, R> {
    /// The runtime.
    pub rt: &'a R,
    /// The allocator.
    pub alloc: Global,
    /// The deck.
    pub cut: Cut,
    /// The table, at most 4,194,304 bytes.
    pub table: &'a [u8],
}

impl<'a, R> Model for Case<'a, R> {
    ghost use Rattle.std.specs.Prelude.{◌≤◌, length};
    ghost use Rattle.transyt_words.specs.Case.{CaseValue};

    ghost Value = { CaseValue };

    ghost view = { λ case. record {
      net = case.cut.net;
      line = case.cut.line;
      table = case.table.now;
    } };

    ghost invariant = { λ case. (case.cut.line ≤ 4194304) × (length case.table.now ≤ 4194304) };
}

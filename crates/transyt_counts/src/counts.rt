//! The answer to a table of counts.

use std::marker::Model;
use transyt_net::Edit;
use transyt_syntax::Code;

/// The answer to a table of counts.
#[derive(Drop)]
pub struct Counts {
    /// How many rows the table has.
    pub rows: u32,
    /// An edit for each counted flow, in the order of their first rows.
    pub edits: Vec<Edit>,
}

impl Model for Counts {
    ghost use Rattle.transyt_counts.specs.Counts.{CountsValue};

    ghost Value = { CountsValue };

    ghost view = { λ c. record { rows = c.rows; edits = c.edits.items } };
}

/// Why a table of counts is refused.
#[derive(Clone, Copy, PartialEq, Eq)]
pub enum CountStop {
    /// The first row with a code, from 1, or the last row of a key whose flow is too great.
    Refused { row: u32, code: Code },
    /// Out of memory.
    Memory,
}

//! The approaches of a town.
ghost use Rattle.std.specs.Prelude.{◌≡◌, ◌<◌, ◌≤◌, ◌*◌, IfSome};
ghost use Rattle.transyt_make.specs.Made.{neighbour, node_at, side_at, number_at, stage_at};

use crate::town::Town;

/// The approach that a link serves: a side of a node, from which the link comes. Places of links count from 0, in card
/// order, four to a node.
#[derive(Clone, Copy)]
pub(crate) struct Approach {
    /// The town.
    pub(crate) town: Town,
    /// The place of the link.
    pub(crate) place: u32,
    ghost inside: { place < 4 * town.nodes },
}

impl Approach {
    /// The card number of the node.
    pub(crate) fn node(self) -> u32
        ensures value { result ≡ node_at self.place }
        ensures most { result ≤ self.town.nodes }
    {
        self.place / 4 + 1
    }

    /// The side of the node, 1 to 4: that of the node before it, after it, above it or below it.
    pub(crate) fn side(self) -> u32
        ensures value { result ≡ side_at self.place }
        ensures some { 1 ≤ result }
        ensures most { result ≤ 4 }
    {
        self.place % 4 + 1
    }

    /// The card number of the link.
    pub(crate) fn number(self) -> u32
        ensures value { result ≡ number_at self.place }
        ensures small { result ≤ 2004 }
    {
        10 * self.node() + self.side()
    }

    /// The stage in which the link runs.
    pub(crate) fn stage(self) -> u32
        ensures value { result ≡ stage_at self.place }
        ensures some { 1 ≤ result }
        ensures most { result ≤ 2 }
    {
        if self.side() <= 2 { 1 } else { 2 }
    }

    /// The neighbour on this side, in rows of eight, if there is one: its card number.
    pub(crate) fn neighbour(self) -> Option<u32>
        ensures value { result ≡ neighbour self.town.nodes self.place }
        ensures within { IfSome result (λ j. (1 ≤ j) × (j ≤ self.town.nodes)) }
    {
        let node = self.node();
        match self.side() {
            1 if 0 < (node - 1) % 8 => Some(node - 1),
            1 => None,
            2 if (node - 1) % 8 < 7 && node < self.town.nodes => Some(node + 1),
            2 => None,
            3 if 8 < node => Some(node - 8),
            3 => None,
            _ if node + 8 <= self.town.nodes => Some(node + 8),
            _ => None,
        }
    }
}

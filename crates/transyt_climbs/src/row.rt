//! The rows of a table of climbs.

/// A climb of a network.
#[derive(Clone, Copy, Drop)]
pub struct Climbed {
    /// The number of the row.
    pub number: u32,
    /// The index before the climb.
    pub from: u128,
    /// How many steps were taken.
    pub took: u32,
    /// Whether the climb ended LOCAL, and not BUDGET.
    pub local: bool,
    /// How many places were looked at.
    pub looked: u32,
    /// The index after the climb.
    pub to: u128,
}

/// A row: a climb, or why there is no network to climb on.
#[derive(Clone, Copy, Drop)]
pub enum NetworkRow {
    /// There is no such network: the number of the row.
    NoPlan { number: u32 },
    /// The stages of a node don't fit into the cycle: the number of the row, and that of the node.
    Barred { number: u32, node: u32 },
    /// The network was climbed on.
    Climbed(Climbed),
}

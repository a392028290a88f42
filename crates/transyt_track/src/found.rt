//! The network that an edit would give, as far as it was looked at.

/// Found of a network with an edit made: its index, and how many pairs were due.
#[derive(Clone, Copy)]
pub struct Found {
    /// The index of the network then.
    pub index: u128,
    /// How many pairs of a link and a sweep were due.
    pub due: u64,
}

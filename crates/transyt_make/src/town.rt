//! A town that is asked for.
ghost use Rattle.std.specs.Prelude.{◌≤◌};

/// A town that is asked for: a seed of at most 999,999,999, and 1 to 200 nodes.
#[derive(Clone, Copy)]
pub(crate) struct Town {
    /// The seed of its draws.
    pub(crate) seed: u32,
    /// How many nodes it has.
    pub(crate) nodes: u32,
    ghost seed_fits: { seed ≤ 999999999 },
    ghost some: { 1 ≤ nodes },
    ghost most: { nodes ≤ 200 },
}

//! A start that is asked for.

ghost use Rattle.std.specs.Prelude.{◌≤◌};

/// A start that is asked for: a seed of at most 999,999,999, and a place of at most 999.
#[derive(Clone, Copy)]
pub(crate) struct Start {
    /// The seed of the draws.
    pub(crate) seed: u32,
    /// The place in the list of starts, from 0.
    pub(crate) place: usize,
    ghost seed_fits: { seed ≤ 999999999 },
    ghost place_fits: { place ≤ 999 },
}

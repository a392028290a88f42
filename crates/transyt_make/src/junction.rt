//! The junctions of a town.
ghost use Rattle.std.specs.Prelude.{◌<◌};

use crate::town::Town;

/// The junction at a place of a town, in card order from 0.
#[derive(Clone, Copy)]
pub(crate) struct Junction {
    /// The town.
    pub(crate) town: Town,
    /// The place of its node.
    pub(crate) place: u32,
    ghost inside: { place < town.nodes },
}

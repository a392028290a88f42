//! The stages of a node, before they get their bare plan.

ghost use Rattle.std.specs.Prelude.{◌<◌, ◌≤◌, length, All};
ghost use Rattle.transyt_parts.specs.Valid.{IsStage};
ghost use Rattle.transyt_variants.specs.Cycles.{least_length};

use crate::lengths::Lengths;
use transyt_net::Stage;

/// The stages of a node in the old cycle, which with their least greens fit into the new one.
#[derive(Clone, Copy)]
pub(crate) struct NodeStages<'a> {
    /// The lengths of the two cycles.
    pub(crate) lengths: Lengths,
    /// The stages, in order.
    pub(crate) stages: &'a [Stage],
    ghost some: { 0 < length stages.now },
    ghost few: { length stages.now ≤ 8 },
    ghost each: { All (IsStage lengths.before) stages.now },
    ghost room: { least_length stages.now ≤ lengths.after },
}

//! Stages and greens that are laid one after another.

ghost use Rattle.std.specs.Prelude.{◌≡◌, ◌<◌, ◌≤◌, length, All};
ghost use Rattle.transyt_parts.specs.Plan.{stage_of};

use transyt_net::Stage;

/// The stages of a node and a green for each, in a cycle of so many steps.
#[derive(Clone, Copy)]
pub(crate) struct Fitting<'a> {
    /// The steps of the cycle.
    pub(crate) steps: u32,
    /// The stages, in order, the first at its change.
    pub(crate) stages: &'a [Stage],
    /// Their greens, in steps.
    pub(crate) greens: &'a [u32],
    ghost steps_some: { 0 < steps },
    ghost steps_most: { steps ≤ 120 },
    ghost some: { 0 < length stages.now },
    ghost first: { (stage_of stages.now 0).change < steps },
    ghost count: { length greens.now ≡ length stages.now },
    ghost gaps: { All (λ s. s.intergreen ≤ 120) stages.now },
    ghost small: { All (λ e. e ≤ 240) greens.now },
}

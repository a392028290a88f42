//! The steps at which a link is shown, with its lags.

ghost use Rattle.std.specs.Prelude.{◌<◌, ◌≤◌, length};

/// At which steps a link is shown, and its lags, in steps.
///
/// A cycle has at most 120 steps, and the end lag is shorter than the cycle.
#[derive(Clone, Copy)]
pub(crate) struct Shown<'a> {
    /// A flag for each step of the cycle: the link is shown at it.
    pub(crate) steps: &'a [bool],
    /// Its start lag.
    pub(crate) start_lag: u32,
    /// Its end lag.
    pub(crate) end_lag: u32,
    ghost most: { length steps.now ≤ 120 },
    ghost end_within: { end_lag < length steps.now },
}

/// A step of the cycle, from 0, beside those at which a link is shown.
#[derive(Clone, Copy)]
pub(crate) struct ShownStep<'a> {
    /// At which steps the link is shown.
    pub(crate) shown: Shown<'a>,
    /// The step.
    pub(crate) step: usize,
    ghost within: { step < length shown.steps.now },
}

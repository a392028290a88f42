//! Arrivals that are to be scaled down to GO.

ghost use Rattle.std.specs.Prelude.{◌≡◌, ◌*◌, ◌^◌, ◌<◌, sum};

/// The arrivals of a cycle, which are more than its GO, in millionths of a vehicle.
#[derive(Clone, Copy)]
pub(crate) struct Scaling<'a> {
    /// The arrivals of each step, before the cut.
    pub(crate) profile: &'a [u64],
    /// Their sum.
    pub(crate) arrivals: u64,
    /// GO of the cycle.
    pub(crate) go: u64,
    ghost is_sum: { arrivals ≡ sum profile.now },
    ghost part: { go < arrivals },
}

/// The same where the sum has 32 bits, with a number near its reciprocal: one division serves for all steps.
#[derive(Clone, Copy)]
pub(crate) struct NearScaling<'a> {
    /// The arrivals, their sum and GO.
    pub(crate) scaling: Scaling<'a>,
    /// 2^64 over the sum, or a little less.
    pub(crate) near: u64,
    ghost fits: { scaling.arrivals < 2 ^ 32 },
    ghost is_near: { near * scaling.arrivals < 2 ^ 64 },
}

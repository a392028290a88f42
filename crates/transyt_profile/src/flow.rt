//! The traffic at a stop line.

ghost use Rattle.std.specs.Prelude.{◌≡◌, ◌^◌, ◌<◌, ◌≤◌, length, All};

/// The arrivals at a stop line and its GO, one value for each step of the cycle, in millionths of a vehicle.
#[derive(Clone, Copy)]
pub struct Flow<'a> {
    /// The arrivals.
    pub arrivals: &'a [u64],
    /// GO.
    pub go: &'a [u64],
    pub ghost most: { length arrivals.now ≤ 120 },
    pub ghost go_len: { length go.now ≡ length arrivals.now },
    pub ghost arrivals_fit: { All (λ v. v < 2 ^ 48) arrivals.now },
    pub ghost go_fit: { All (λ v. v < 2 ^ 30) go.now },
}

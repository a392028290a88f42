//! How a platoon spreads on its way.

ghost use Rattle.std.specs.Prelude.{◌≡◌, ◌*◌, ◌≤◌};

/// A travel time and a dispersion, each within its limit.
#[derive(Clone, Copy)]
pub struct Spread {
    /// The travel time in steps.
    pub time: u32,
    /// The dispersion in percent.
    pub percent: u32,
    pub ghost time_fits: { time ≤ 960 },
    pub ghost percent_fits: { percent ≤ 100 },
}

impl Spread {
    /// The weight of the smoothed value a step before, against 100 for the value that sets out: dispersion times time.
    pub(crate) fn weight(self) -> u64
        ensures value { result ≡ self.percent * self.time }
        ensures small { result ≤ 96000 }
    {
        u64::from(self.percent) * u64::from(self.time)
    }
}

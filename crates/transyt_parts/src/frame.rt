//! The numbers of the whole network.

/// The numbers of the whole network: the cycle, and how it is worked out.
///
/// Times are in whole seconds, minutes or steps as each field says. LR 253 has the cycle, the steps
/// and the dispersion; the sweeps, the period and the limits are this project's own.
#[derive(Clone, Copy, PartialEq, Eq)]
pub struct Frame {
    /// The length of the cycle in seconds, 30 to 240.
    pub cycle: u32,
    /// Into how many steps of equal length the cycle is cut, 10 to 120.
    pub step_count: u32,
    /// How often the links are worked out one after another, 1 to 8.
    pub sweeps: u32,
    /// The minutes that the random delay is worked out for, 15 to 120.
    pub period: u32,
    /// The weight of a stop against a second of delay, in hundredths; at most 9,999.
    pub stop_penalty: u32,
    /// The dispersion of platoons in per cent, at most 100.
    pub dispersion: u32,
}

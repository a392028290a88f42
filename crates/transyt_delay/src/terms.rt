//! The terms of a link's figures.

use transyt_parts::Weights;

/// The numbers of a network's frame that the figures of a link take, all of them whole.
#[derive(Clone, Copy, PartialEq, Eq)]
pub struct TermsFrame {
    /// The cycle in seconds.
    pub cycle: u32,
    /// The number of steps in a cycle.
    pub step_count: u32,
    /// The period that is looked at, in minutes.
    pub period: u32,
    /// The weight of a stop against delay, in hundredths.
    pub stop_penalty: u32,
}

/// The terms of a link's figures; the four sums are over one cycle.
#[derive(Clone, Copy, PartialEq, Eq)]
pub struct Terms {
    /// The arrivals at the stop line, before any cut, in millionths of a vehicle.
    pub arrivals: u64,
    /// GO of a cycle, in millionths of a vehicle.
    pub room: u64,
    /// The queue at each step's end, summed over the steps, in millionths of a vehicle.
    pub queued: u64,
    /// The arrivals of the steps that end with a queue, in millionths of a vehicle.
    pub stopped: u64,
    /// The numbers of the network's frame.
    pub frame: TermsFrame,
    /// The link's weights.
    pub weights: Weights,
}

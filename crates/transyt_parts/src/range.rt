//! Whether numbers are in their ranges, and whether they differ.

ghost use Rattle.std.specs.Prelude.{◌≡◌, ◌↔◌, ◌<◌, ◌≤◌, [], All, IsTrue, nat_le};
ghost use Rattle.std.specs.List.{list_all};
ghost use Rattle.transyt_parts.specs.Valid.{is_frame, all_differ, node_in_range, stage_in_range, link_in_range, feed_in_range, weights_in_range, AreWeights, IsFrame, IsStage, HasRanges};
ghost use Rattle.transyt_parts.specs.Ranges.{within, is_in, most_flow, most_weight, most_percent, number_range, saturation_range, cruise_range, budget_range, IsWithin, IsIn};
ghost use Rattle.transyt_parts.specs.Made.{link_from};

use crate::frame::Frame;
use crate::link::{Feed, NewLink, Weights};
use crate::node::Stage;

/// Whether a number is one of `low..=high`.
pub fn is_within(low: u32, high: u32, value: u32) -> bool
    ensures test { result ≡ within low high value }
    ensures tells { IsTrue result ↔ IsWithin low high value }
{
    low <= value && value <= high
}

/// Whether each of these is one of `low..=high`.
pub fn all_within(low: u32, high: usize, numbers: &[u32]) -> bool
    ensures test { result ≡ list_all (within low high) numbers.now }
    ensures tells { IsTrue result ↔ All (IsWithin low high) numbers.now }
{
    numbers.iter().all(|n| low <= *n && *n as usize <= high)
}

/// Whether a node or a link can have this card number.
pub fn is_number(number: u32) -> bool
    ensures test { result ≡ is_in number_range number }
    ensures tells { IsTrue result ↔ IsIn number_range number }
{
    is_within(1, 99_999, number)
}

/// Whether a card can have this flow, in vehicles per hour.
pub fn is_flow(flow: u32) -> bool
    ensures test { result ≡ nat_le flow most_flow }
    ensures tells { IsTrue result ↔ flow ≤ most_flow }
{
    flow <= 9999
}

/// Whether this is a saturation flow, in vehicles per hour.
pub fn is_saturation(flow: u32) -> bool
    ensures test { result ≡ is_in saturation_range flow }
    ensures tells { IsTrue result ↔ IsIn saturation_range flow }
{
    is_within(100, 9999, flow)
}

/// Whether a delay or stops can have this weight.
pub fn is_weight(weight: u32) -> bool
    ensures test { result ≡ nat_le weight most_weight }
    ensures tells { IsTrue result ↔ weight ≤ most_weight }
{
    weight <= 999
}

/// Whether a link can have these weights.
pub fn are_weights(weights: Weights) -> bool
    ensures test { result ≡ weights_in_range weights }
    ensures tells { IsTrue result ↔ AreWeights weights }
{
    is_weight(weights.delay) && is_weight(weights.stop)
}

/// Whether this is a cruise time, in seconds.
pub fn is_cruise(seconds: u32) -> bool
    ensures test { result ≡ is_in cruise_range seconds }
    ensures tells { IsTrue result ↔ IsIn cruise_range seconds }
{
    is_within(1, 300, seconds)
}

/// Whether a give-way rule can have this per cent.
pub fn is_percent(percent: u32) -> bool
    ensures test { result ≡ nat_le percent most_percent }
    ensures tells { IsTrue result ↔ percent ≤ most_percent }
{
    percent <= 400
}

/// Whether a climb can have this budget.
pub fn is_budget(budget: u32) -> bool
    ensures test { result ≡ is_in budget_range budget }
    ensures tells { IsTrue result ↔ IsIn budget_range budget }
{
    is_within(1, 1_000_000, budget)
}

/// Whether no number stands twice.
pub fn all_differ(numbers: &[u32]) -> bool
    ensures { result ≡ all_differ numbers.now }
{
    match numbers {
        [] => true,
        [first, rest @ ..] => !rest.contains(first) && all_differ(rest),
    }
}

/// Whether each number of a frame is in its range, as its fields say it.
pub fn is_frame_in_range(frame: Frame) -> bool
    ensures test { result ≡ is_frame frame }
    ensures tells { IsTrue result ↔ IsFrame frame }
{
    is_within(30, 240, frame.cycle)
        && is_within(10, 120, frame.step_count)
        && is_within(1, 8, frame.sweeps)
        && is_within(15, 120, frame.period)
        && frame.stop_penalty <= 9999
        && frame.dispersion <= 100
}

/// Whether a node's card number is one of 1 to 99,999 and its offset, in steps, below `steps`.
pub fn is_node_in_range(steps: u32, number: u32, offset: u32) -> bool
    ensures test { result ≡ node_in_range steps number offset }
    ensures tells { IsTrue result ↔ IsIn number_range number × (offset < steps) }
{
    is_number(number) && offset < steps
}

/// Whether a stage's change and intergreen are below `steps`, and its least green is one of 1 to
/// `steps`.
pub fn is_stage_in_range(steps: u32, stage: Stage) -> bool
    ensures test { result ≡ stage_in_range steps stage }
    ensures tells { IsTrue result ↔ IsStage steps stage }
{
    stage.change < steps && stage.intergreen < steps && is_within(1, steps, stage.least)
}

/// Whether a link's numbers are in their ranges, that of its node apart.
///
/// Flows are in vehicles per hour. Lags are in steps, and below `steps`.
pub fn is_link_in_range(steps: u32, link: NewLink) -> bool
    ensures test { result ≡ link_in_range steps (link_from link []) }
    ensures tells { IsTrue result ↔ HasRanges steps (link_from link []) }
{
    is_number(link.number)
        && is_flow(link.entry)
        && is_saturation(link.saturation)
        && are_weights(link.weights)
        && link.start_lag < steps
        && link.end_lag < steps
}

/// Whether the flow and the cruise time of a feed are in their ranges; its feeder isn't looked at.
pub fn is_feed_in_range(feed: Feed) -> bool
    ensures test { result ≡ feed_in_range feed }
    ensures tells { IsTrue result ↔ (feed.flow ≤ most_flow) × IsIn cruise_range feed.cruise }
{
    is_flow(feed.flow) && is_cruise(feed.cruise)
}

//! A platoon made ready for its travel.

ghost use Rattle.std.specs.Prelude.{◌≡◌, ℕ, ◌+◌, ◌*◌, ◌^◌, ◌<◌, ◌≤◌, bit_or, fold, length, slice_index, sum, true, All, Any};
ghost use Rattle.std.specs.Prelude.{IfNone, IfSome};
ghost use Rattle.transyt_profile.specs.Arriving.{sent};
ghost use Rattle.transyt_profile.specs.Passing.{AreShared, Fits, InLane};
ghost use Rattle.transyt_profile.specs.Profile.{share_of};

use crate::platoon::Platoon;
use crate::shares::Shares;
use crate::sharing::{Part, product, share_step};

/// One of four lanes, and the platoon whose products are made ready in it.
#[derive(Clone, Copy)]
pub(crate) struct Lane<'a> {
    /// The platoon.
    pub(crate) platoon: &'a Platoon<'a>,
    /// Which of the four it is, from 0.
    pub(crate) number: usize,
    ghost within: { number < 4 },
}

/// Writes the products of a platoon, each value that sets out times its factor, beside three others, and returns the sum
/// of the values, where all of them are below the limit of the travel; none where one is not.
///
/// `lanes` has four values for each step of the cycle: each product is written at the lane's place of the four of its step.
/// What stood there is overwritten, and the other lanes stay. It takes least time where all bits of the values together
/// are below the limit.
pub(crate) fn share_ready(lane: &Lane<'_>, lanes: &mut [u64]) -> Option<u64>
    requires { length lanes.old ≡ 4 * length lane.now.platoon.now.leaving.now }
    ensures below { IfSome result (λ _. Fits lane.now.platoon.now) }
    ensures ready { IfSome result (λ _. InLane lane.now.number lanes.new lane.now.platoon.now) }
    ensures total { IfSome result (λ total. total ≡ sum (sent lane.now.platoon.now)) }
    ensures none { IfNone result
        (Any (λ v. lane.now.platoon.now.travel.now.limit ≤ v) (sent lane.now.platoon.now)) }
    ensures others { (k : ℕ) → (m : ℕ) → m < 4 → (m ≡ lane.now.number → ⊥)
        → slice_index lanes.new (4 * k + m) ≡ slice_index lanes.old (4 * k + m) }
{
    let Lane { platoon, number } = *lane;
    let part = platoon.part;
    if part.quick {
        if let Some(total) = share_below(lane, lanes) {
            return Some(total);
        }
    }
    // Any part: the greatest share is compared, since all bits together can reach the limit though no share does.
    let x = platoon.leaving;
    let factor = platoon.travel.starting_factor;
    let limit = platoon.travel.limit;
    let mut total: u64 = 0;
    let mut greatest: u64 = 0;
    for i in 0..x.len() {
        let share = share_step(x[i], part);
        lanes[4 * i + number] = times(share, factor);
        total += share;
        greatest = greatest.max(share);
    }
    if greatest < limit { Some(total) } else { None }
}

/// `share_ready` with one product and no division a step, where all bits of the values together are below
/// the limit: then each value is. None where they are not. Nothing is tested at a step, so that no step waits for the one
/// before.
fn share_below(lane: &Lane<'_>, lanes: &mut [u64]) -> Option<u64>
    requires lanes_len { length lanes.old ≡ 4 * length lane.now.platoon.now.leaving.now }
    requires quick { lane.now.platoon.now.part.now.quick ≡ true }
    ensures below { IfSome result (λ _. Fits lane.now.platoon.now) }
    ensures ready { IfSome result (λ _. InLane lane.now.number lanes.new lane.now.platoon.now) }
    ensures total { IfSome result (λ total. total ≡ sum (sent lane.now.platoon.now)) }
    ensures none { IfNone result (lane.now.platoon.now.travel.now.limit
        ≤ fold (λ bits v. bit_or bits (share_of lane.now.platoon.now.part.now.part
        lane.now.platoon.now.part.now.whole v)) 0 lane.now.platoon.now.leaving.now) }
    ensures others { (k : ℕ) → (m : ℕ) → m < 4 → (m ≡ lane.now.number → ⊥)
        → slice_index lanes.new (4 * k + m) ≡ slice_index lanes.old (4 * k + m) }
{
    let shares = share_all(lane, lanes);
    if shares.bits < lane.platoon.travel.limit {
        Some(shares.total)
    } else {
        None
    }
}

/// Shares each value of a platoon by its factor, and writes the products: four steps at a time, so that there are a fourth
/// of the rounds of the loop, and then one by one.
fn share_all(lane: &Lane<'_>, lanes: &mut [u64]) -> Shares
    requires lanes_len { length lanes.old ≡ 4 * length lane.now.platoon.now.leaving.now }
    requires quick { lane.now.platoon.now.part.now.quick ≡ true }
    ensures shared { AreShared lane.now.platoon.now lane.now.number lanes.new result }
    ensures others { (k : ℕ) → (m : ℕ) → m < 4 → (m ≡ lane.now.number → ⊥)
        → slice_index lanes.new (4 * k + m) ≡ slice_index lanes.old (4 * k + m) }
{
    let Lane { platoon, number } = *lane;
    let x = platoon.leaving;
    let part = *platoon.part;
    let factor = platoon.travel.starting_factor;
    let fours = x.len() / 4;
    let mut shares = Shares { total: 0, bits: 0 };
    for four in 0..fours {
        let at = 4 * four;
        shares.add(ready(x[at], &part, factor, &mut lanes[4 * at + number]));
        shares.add(ready(x[at + 1], &part, factor, &mut lanes[4 * (at + 1) + number]));
        shares.add(ready(x[at + 2], &part, factor, &mut lanes[4 * (at + 2) + number]));
        shares.add(ready(x[at + 3], &part, factor, &mut lanes[4 * (at + 3) + number]));
    }
    for at in 4 * fours..x.len() {
        shares.add(ready(x[at], &part, factor, &mut lanes[4 * at + number]));
    }
    shares
}

/// The share of one step, by the factor of its part; its product by the factor of its travel is written.
fn ready(value: u64, part: &Part, factor: u64, ready: &mut u64) -> u64
    requires fits { value < 2 ^ 30 }
    requires quick { part.now.quick ≡ true }
    ensures share { result ≡ share_of part.now.part part.now.whole value }
    ensures small { result < 2 ^ 44 }
    ensures ready { result * factor < 2 ^ 64 → ready.new ≡ result * factor }
{
    let share = product(value, part);
    *ready = times(share, factor);
    share
}

/// A product, where it has 64 bits.
fn times(value: u64, factor: u64) -> u64
    ensures { value * factor < 2 ^ 64 → result ≡ value * factor }
{
    value.wrapping_mul(factor)
}

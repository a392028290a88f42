//! The cut: the arrivals that the green can serve.

ghost use Rattle.std.specs.Prelude.{◌≡◌, ℕ, ◌^◌, ◌*◌, ◌<◌, ◌≤◌, length, sum, slice_index, All};
ghost use Rattle.transyt_profile.specs.StopLine.{arrivals_of, scaled};

use crate::cut_totals::Totals;
use crate::flow::Flow;
use crate::scaling::{NearScaling, Scaling};
use crate::total;
use transyt_num::{divided_near, mul_div};

/// The cut: the arrivals that the green can serve.
///
/// All three slices have one value for each step of the cycle, in millionths of a vehicle; `out` is overwritten.
/// Where the arrivals of a cycle are above its GO, each step is scaled down by their ratio, rounded down; else they
/// stay as they are. This cut is this project's own.
#[tactic(auto, using(crate::proofs::CutLaws::arrivals_total, crate::proofs::CutLaws::arrivals_no_more, crate::proofs::CutLaws::arrivals_small))]
pub fn cut_arrivals(x: &[u64], go: &[u64], out: &mut [u64])
    requires most { length x.now ≤ 120 }
    requires go_len { length go.now ≡ length x.now }
    requires out_len { length out.old ≡ length x.now }
    requires fit { All (λ v. v < 2 ^ 48) x.now }
    requires go_fit { All (λ v. v < 2 ^ 30) go.now }
    ensures cut { out.new ≡ arrivals_of x.now go.now }
    ensures total { sum out.new ≤ sum go.now }
    ensures no_more { (i : ℕ) → slice_index out.new i ≤ slice_index x.now i }
    ensures small { All (λ v. v < 2 ^ 48) out.new }
{
    let flow = Flow { arrivals: x, go };
    if !cut(&flow, out).more_comes() {
        out.copy_from_slice(x);
    }
}

/// Writes the arrivals after the cut only where they are above GO, and answers both sums, which say whether they are.
/// Else the arrivals stay as they are, and nobody need copy them: `out` then holds nothing of use.
///
/// `out` has one value for each step of the cycle, and the rule is that of `cut_arrivals`.
#[tactic(auto, using(crate::proofs::CutLaws::arrivals_total, crate::proofs::CutLaws::arrivals_small))]
pub fn cut(flow: &Flow<'_>, out: &mut [u64]) -> Totals
    requires { length out.old ≡ length flow.now.arrivals.now }
    ensures arrivals { result.arrivals ≡ sum flow.now.arrivals.now }
    ensures go { result.go ≡ sum flow.now.go.now }
    ensures cut { result.go < result.arrivals
        → out.new ≡ arrivals_of flow.now.arrivals.now flow.now.go.now }
    ensures uncut { result.arrivals ≤ result.go
        → flow.now.arrivals.now ≡ arrivals_of flow.now.arrivals.now flow.now.go.now }
    ensures total { sum (arrivals_of flow.now.arrivals.now flow.now.go.now) ≤ sum flow.now.go.now }
    ensures small { All (λ v. v < 2 ^ 48) (arrivals_of flow.now.arrivals.now flow.now.go.now) }
{
    let totals = Totals {
        arrivals: total(flow.arrivals),
        go: total(flow.go),
    };
    if totals.more_comes() {
        let scaling = Scaling {
            profile: flow.arrivals,
            arrivals: totals.arrivals,
            go: totals.go,
        };
        scale(&scaling, out);
    }
    totals
}

/// Scales each step down to its part of GO.
#[tactic(auto, using(crate::proofs::CutLaws::step_within))]
fn scale(scaling: &Scaling<'_>, out: &mut [u64])
    requires { length out.old ≡ length scaling.now.profile.now }
    ensures { (k : ℕ) → k < length scaling.now.profile.now → slice_index out.new k
        ≡ scaled scaling.now.arrivals scaling.now.go (slice_index scaling.now.profile.now k) }
{
    let scaling = *scaling;
    if scaling.arrivals < 1 << 32 {
        let near = u64::MAX / scaling.arrivals;
        scale_near(&NearScaling { scaling, near }, out);
        return;
    }
    let x = scaling.profile;
    for step in 0..x.len() {
        out[step] = scale_one(&scaling, x[step]);
    }
}

/// The same with one division for all steps.
#[tactic(auto, using(crate::proofs::CutLaws::step_within))]
fn scale_near(near: &NearScaling<'_>, out: &mut [u64])
    requires { length out.old ≡ length near.now.scaling.profile.now }
    ensures { (k : ℕ) → k < length near.now.scaling.profile.now → slice_index out.new k
        ≡ scaled near.now.scaling.arrivals near.now.scaling.go (slice_index near.now.scaling.profile.now k) }
{
    let near = *near;
    let x = near.scaling.profile;
    for step in 0..x.len() {
        out[step] = scale_one_near(&near, x[step]);
    }
}

/// One step scaled down, by a number near the reciprocal of the arrivals' sum.
#[tactic(auto, using(crate::proofs::CutLaws::product_fits))]
fn scale_one_near(near: &NearScaling<'_>, value: u64) -> u64
    requires { value ≤ near.now.scaling.arrivals }
    ensures { result ≡ scaled near.now.scaling.arrivals near.now.scaling.go value }
{
    divided_near(value * near.scaling.go, near.scaling.arrivals, near.near)
}

/// One step scaled down, by a division.
#[tactic(auto, using(crate::proofs::CutLaws::scaled_part))]
fn scale_one(scaling: &Scaling<'_>, value: u64) -> u64
    requires { value ≤ scaling.now.arrivals }
    ensures { result ≡ scaled scaling.now.arrivals scaling.now.go value }
{
    mul_div(value, scaling.go, scaling.arrivals) as u64
}

//! The part of a profile that goes on to one link.

ghost use Rattle.std.specs.Prelude.{◌≡◌, ◌+◌, ◌*◌, ◌^◌, ◌<◌, ◌≤◌, length, true, All};
ghost use Rattle.transyt_profile.specs.Profile.{share_of, shared, IsQuick};

use transyt_num::reciprocal;

/// Writes the part of a profile that goes on to one link, each value rounded down.
///
/// `x` and `out` hold one value for each step of the cycle, in millionths of a vehicle per step; what stood in
/// `out` is overwritten. Of `whole` vehicles per hour `part` go on. Where `whole` is 0 nothing goes on. The
/// rounding at each step is this project's own.
pub fn share_into(x: &[u64], part: u32, whole: u32, out: &mut [u64])
    requires lengths { length x.now ≡ length out.old }
    requires fit { All (λ v. v < 2 ^ 30) x.now }
    requires part_fits { part ≤ 9999 }
    ensures value { out.new ≡ shared part whole x.now }
    ensures small { All (λ v. v < 2 ^ 44) out.new }
{
    share_part(x, &part_of(part, whole), out);
}

/// A part of a whole, with what is worked out of both once.
#[derive(Clone, Copy)]
pub struct Part {
    /// The part, in vehicles per hour.
    pub part: u32,
    /// The whole, in vehicles per hour.
    pub whole: u32,
    /// The reciprocal of the whole; 0 where it does not serve.
    pub reciprocal: u64,
    /// The part times the reciprocal.
    pub factor: u64,
    /// Whether a product by the factor takes the place of a division.
    pub quick: bool,
    pub ghost fits: { part ≤ 9999 },
    pub ghost is_quick: { quick ≡ true → IsQuick part whole reciprocal factor },
}

/// A part of a whole, both in vehicles per hour, made ready for `share_part`.
///
/// A product serves where the part is less than the whole and the whole is 2 to 1,048,575.
pub fn part_of(part: u32, whole: u32) -> Part
    requires part_fits { part ≤ 9999 }
    ensures part { result.part ≡ part }
    ensures whole { result.whole ≡ whole }
{
    let quick = 1 < whole && whole < 1048576 && part < whole;
    if quick {
        let reciprocal = reciprocal(u64::from(whole));
        Part {
            part,
            whole,
            reciprocal,
            factor: u64::from(part) * reciprocal,
            quick: true,
        }
    } else {
        Part {
            part,
            whole,
            reciprocal: 0,
            factor: 0,
            quick: false,
        }
    }
}

/// The same as `share_into`, by a part that was made ready before.
pub fn share_part(x: &[u64], part: &Part, out: &mut [u64])
    requires lengths { length x.now ≡ length out.old }
    requires fit { All (λ v. v < 2 ^ 30) x.now }
    ensures value { out.new ≡ shared part.now.part part.now.whole x.now }
    ensures small { All (λ v. v < 2 ^ 44) out.new }
{
    for i in 0..out.len() {
        out[i] = share_step(x[i], part);
    }
}

/// The share of one step.
pub(crate) fn share_step(value: u64, part: &Part) -> u64
    requires { value < 2 ^ 30 }
    ensures value { result ≡ share_of part.now.part part.now.whole value }
    ensures small { result < 2 ^ 44 }
{
    if part.quick {
        product(value, part)
    } else {
        share(value, part)
    }
}

/// The share of one step, by the factor.
#[tactic(auto, using(crate::proofs::SharesFit::fits))]
pub(crate) fn product(value: u64, part: &Part) -> u64
    requires fits { value < 2 ^ 30 }
    requires quick { part.now.quick ≡ true }
    ensures value { result ≡ share_of part.now.part part.now.whole value }
    ensures small { result < 2 ^ 44 }
{
    ((u128::from(value) * u128::from(part.factor)) >> 64) as u64
}

/// The share of one step, by a division.
fn share(value: u64, part: &Part) -> u64
    requires { value < 2 ^ 30 }
    ensures value { result ≡ share_of part.now.part part.now.whole value }
    ensures small { result < 2 ^ 44 }
{
    if part.whole == 0 {
        0
    } else {
        value * u64::from(part.part) / u64::from(part.whole)
    }
}

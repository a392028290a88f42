//! Divisions of many numbers by one: a product takes the place of each.

ghost use Rattle.std.specs.Prelude.{◌≡◌, ◌+◌, ◌*◌, ◌/◌, ◌^◌, ◌<◌, ◌≤◌};

/// The reciprocal of `d`: the least m with m · `d` at least 2^64.
///
/// Where n · `d` is below 2^64, n over `d`, rounded down, is n · m / 2^64: one product in place of a division
/// (`by_reciprocal` of `proofs/ReciprocalLaws`).
#[tactic(auto, using(crate::proofs::ReciprocalLaws::reciprocal_least, crate::proofs::ReciprocalLaws::reciprocal_close))]
pub fn reciprocal(d: u64) -> u64
    requires { 1 < d }
    ensures least { 2 ^ 64 ≤ result * d }
    ensures close { result * d < 2 ^ 64 + d }
{
    u64::MAX / d + 1
}

/// `n` over `d`, rounded down, by a number `near` that times `d` is below 2^64.
///
/// With the greatest such number, `u64::MAX / d`, it almost never divides.
#[tactic(auto, using(crate::proofs::ReciprocalLaws::never_above, crate::proofs::ReciprocalLaws::is_quotient))]
pub fn divided_near(n: u64, d: u64, near: u64) -> u64
    requires some { 0 < d }
    requires below { near * d < 2 ^ 64 }
    ensures { result ≡ n / d }
{
    let guess = ((u128::from(n) * u128::from(near)) >> 64) as u64;
    if n - guess * d < d { guess } else { n / d }
}

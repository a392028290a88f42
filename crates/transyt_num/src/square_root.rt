//! The square root.

ghost use Rattle.std.specs.Prelude.{◌≡◌, ℕ, ◌+◌, ◌*◌, ◌^◌, ◌<◌, ◌≤◌, IsTrue};
ghost use Rattle.transyt_num.specs.Root.{root};

/// The square root of `v`, rounded down: the greatest number whose square is at most `v`.
#[tactic(auto, using(crate::proofs::RootLaws::root_is, crate::proofs::RootLaws::root_greatest, crate::proofs::RootLaws::root_only))]
pub fn isqrt(v: u128) -> u128
    ensures value { result ≡ root v }
    ensures floor { result * result ≤ v }
    ensures next { v < (result + 1) * (result + 1) }
    ensures greatest { (r : ℕ) → r * r ≤ v → r ≤ result }
    ensures only { (r : ℕ) → r * r ≤ v → v < (r + 1) * (r + 1) → r ≡ result }
    ensures small { result < 2 ^ 64 }
{
    root_near(v, guess(v))
}

/// The root of `v`: with no search where `near` is the root or the number before it.
fn root_near(v: u128, near: u64) -> u128
    ensures floor { result * result ≤ v }
    ensures next { v < (result + 1) * (result + 1) }
    ensures small { result < 2 ^ 64 }
{
    if is_root(v, near) {
        return u128::from(near);
    }
    let further = near.saturating_add(1);
    if is_root(v, further) {
        return u128::from(further);
    }
    v.isqrt()
}

/// Whether `r` is the root of `v`, rounded down.
fn is_root(v: u128, r: u64) -> bool
    ensures floor { IsTrue result → r * r ≤ v }
    ensures next { IsTrue result → v < (r + 1) * (r + 1) }
{
    let root = u128::from(r);
    let square = root * root;
    square <= v && v - square <= 2 * root
}

/// The root of `v` or the number before it. Nothing rests on that, since `root_near` tests it, so the arithmetic wraps
/// where it would overflow.
fn guess(v: u128) -> u64 {
    let high = (v >> 64) as u64;
    if high > 0 {
        return long_guess(v, 32u32.saturating_sub(high.leading_zeros() / 2));
    }
    let low = (v % 18446744073709551616) as u64;
    let half = (low.leading_zeros() / 2).min(31);
    near_root(low << (2 * half)) >> half
}

/// The same of a `v` that has `2 * half` bits more than 64: the root of its first 64 bits, and after it one division of
/// the rest that its square leaves.
fn long_guess(v: u128, half: u32) -> u64
    requires { half ≤ 32 }
{
    let front = ((v >> (2 * half)) % 18446744073709551616) as u64;
    let near = near_root(front).saturating_add(1).min(4_294_967_295);
    let over = near.wrapping_mul(near) > front;
    let root = if over { near.saturating_sub(1) } else { near };
    let left = u128::from(front.wrapping_sub(root.wrapping_mul(root))) << half;
    let back = (left + (v >> half) % (1 << half)) >> 1;
    let further = (back % 18446744073709551616) as u64 / root.max(1);
    (root << half).saturating_add(further).saturating_sub(1)
}

/// The root of `n` or the number before it, where `n` is at least 2^62.
///
/// Let x be `n` over 2^64. In parts of 2^30, y begins on a parabola near 1 over the root of x, and two steps of Newton's
/// lead nearer. `n` times y is the root but for its last bits, which follow from the rest that its square
/// leaves.
fn near_root(n: u64) -> u64 {
    let x = n >> 32;
    let slope = 3_527_623_300u64.wrapping_sub(1_759_398_870u64.wrapping_mul(x) >> 32);
    let start = 2_867_787_653u64.wrapping_sub(slope.wrapping_mul(x) >> 32);
    let y = nearer(x, nearer(x, start));
    let root = (x.wrapping_mul(y) >> 30).wrapping_sub(4);
    let left = n.wrapping_sub(root.wrapping_mul(root));
    root.wrapping_add((left >> 20).wrapping_mul(y) >> 43)
}

/// A step of Newton's from `y` towards 1 over the root of `x`.
fn nearer(x: u64, y: u64) -> u64 {
    let square = y.wrapping_mul(y) >> 30;
    let product = x.wrapping_mul(square) >> 32;
    y.wrapping_mul(3_221_225_472u64.wrapping_sub(product)) >> 31
}

//! The delay of chance and oversaturation.

ghost use Rattle.std.specs.Prelude.{◌≡◌, ◌+◌, ◌^◌, ◌<◌, ◌≤◌};
ghost use Rattle.transyt_delay.specs.Figures.{random_delay, under_root};
ghost use Rattle.transyt_num.specs.Root.{root};

use transyt_num::isqrt;

/// The delay of chance and oversaturation where `x` come in the period and `y` can go, rounded down.
///
/// All three are in millionths of a vehicle. It is after the sheared form of later versions than LR 253; its form
/// here, in whole numbers, is this project's own.
pub fn random_delay(x: u64, y: u64) -> u64
    requires come { x < 2 ^ 63 }
    requires room { y < 2 ^ 63 }
    ensures value { result ≡ random_delay x y }
    ensures small { result < 2 ^ 63 }
    ensures covered { y ≤ root (under_root x y) + x }
{
    let apart = u128::from(x.abs_diff(y));
    let root = isqrt(apart * apart + 4000000 * u128::from(x));
    ((root + u128::from(x) - u128::from(y)) / 4) as u64
}

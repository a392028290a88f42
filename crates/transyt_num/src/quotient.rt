//! A product divided.

ghost use Rattle.std.specs.Prelude.{◌≡◌, ◌*◌, ◌/◌, ◌<◌};

/// `a` times `b` over `d`, rounded down. The product never overflows.
pub fn mul_div(a: u64, b: u64, d: u64) -> u128
    requires { 0 < d }
    ensures { result ≡ a * b / d }
{
    u128::from(a) * u128::from(b) / u128::from(d)
}

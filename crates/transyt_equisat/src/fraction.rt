//! Fractions of whole numbers.

ghost use Rattle.std.specs.Prelude.{◌≡◌};
ghost use Rattle.transyt_equisat.specs.Degrees.{is_above};

/// A fraction, with a positive base.
#[derive(Clone, Copy)]
pub struct Fraction {
    pub top: u64,
    pub base: u64,
}

/// Whether `a` is above `b`.
pub fn is_above(a: Fraction, b: Fraction) -> bool
    ensures { result ≡ is_above a b }
{
    u128::from(b.top) * u128::from(a.base) < u128::from(a.top) * u128::from(b.base)
}

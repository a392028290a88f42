//! A step of a platoon.

ghost use Rattle.std.specs.Prelude.{◌≡◌, ◌<◌};
ghost use Rattle.transyt_profile.specs.Passing.{product_at, steps_of};

use crate::platoon::Platoon;

/// A step of a platoon, with the product that is ready for the value that sets out at it.
#[derive(Clone, Copy)]
pub(crate) struct Start<'a> {
    /// The platoon.
    pub(crate) platoon: &'a Platoon<'a>,
    /// The number of the step, from 0.
    pub(crate) step: usize,
    /// The product.
    pub(crate) product: u64,
    ghost within: { step < steps_of platoon.now },
    ghost is_product: { product ≡ product_at platoon.now step },
}

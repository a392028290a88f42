//! Platoons that are to set out.

ghost use Rattle.std.specs.Prelude.{◌≡◌, ◌%◌, ◌^◌, ◌<◌, ◌≤◌, length, All};

use crate::Part;
use crate::travel::Travel;

/// A platoon that is to set out: the departures of a link, the part of them that goes on, and how that travels.
///
/// All of it is borrowed, so that a platoon is four words.
#[derive(Clone, Copy)]
pub struct Platoon<'a> {
    /// The departures of the link, one value for each step of the cycle.
    pub leaving: &'a [u64],
    /// The part of them that goes on.
    pub part: &'a Part,
    /// How it travels.
    pub travel: &'a Travel,
    pub ghost some: { 0 < length leaving.now },
    pub ghost most: { length leaving.now ≤ 120 },
    pub ghost leaving_fit: { All (λ v. v < 2 ^ 30) leaving.now },
    pub ghost place: { travel.now.place ≡ travel.now.time % length leaving.now },
}

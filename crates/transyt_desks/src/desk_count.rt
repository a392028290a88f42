//! How many desks there are, or how many of them try.

ghost use Rattle.std.specs.Prelude.{◌<◌, ◌≤◌};

/// A number of desks: one to eight.
#[derive(Clone, Copy)]
pub(crate) struct DeskCount {
    /// How many desks.
    pub(crate) number: usize,
    ghost some: { 0 < number },
    ghost few: { number ≤ 8 },
}

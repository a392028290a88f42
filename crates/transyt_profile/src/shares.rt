//! What the shares of a platoon come to.

ghost use Rattle.std.specs.Prelude.{◌≡◌, ◌+◌, ◌^◌, ◌<◌, bit_or};

/// Shares of a platoon that sets out, all of them together.
#[derive(Clone, Copy)]
pub(crate) struct Shares {
    /// Their sum.
    pub(crate) total: u64,
    /// All bits that stand in one of them.
    pub(crate) bits: u64,
}

impl Shares {
    /// A share more.
    pub(crate) fn add(&mut self, share: u64)
        requires { self.old.total + share < 2 ^ 64 }
        ensures total { self.new.total ≡ self.old.total + share }
        ensures bits { self.new.bits ≡ bit_or self.old.bits share }
    {
        self.total += share;
        self.bits |= share;
    }
}

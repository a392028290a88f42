//! The draws from a seed.
ghost use Rattle.std.specs.Prelude.{◌≡◌, ◌<◌, ◌≤◌};
ghost use Rattle.transyt_make.specs.Draws.{draw, further};

use std::marker::Model;

/// Draws one after another by a linear congruence: seen as the seed, and how many of its draws were taken.
///
/// The numbers begin with the seed; each is 1,103,515,245 times the one before plus 12,345, modulo 2^31, and a draw
/// leaves the low 16 bits of its number out.
#[derive(Drop)]
pub struct Draws {
    seed: u32,
    taken: u64,
    x: u64,
}

impl Model for Draws {
    ghost use Rattle.std.specs.Prelude.{◌≡◌, ◌<◌, ◌^◌};
    ghost use Rattle.transyt_make.specs.Draws.{DrawsValue, after_draws};

    ghost Value = { DrawsValue };

    ghost view = { λ d. record { seed = d.seed; taken = d.taken } };

    ghost invariant = { λ d. (d.x ≡ after_draws d.seed d.taken) × (d.x < 2 ^ 31) };
}

impl Draws {
    /// The draws of a seed, at most 999,999,999, of which none is taken yet.
    #[tactic(auto, unfolding(crate::specs::Draws::after_draws))]
    pub fn new(seed: u32) -> Draws
        requires { seed ≤ 999999999 }
        ensures { result ≡ record { seed = seed; taken = 0 } }
    {
        Draws {
            seed,
            taken: 0,
            x: u64::from(seed),
        }
    }

    /// The next draw, below `a`, which is at least 1.
    #[tactic(auto, using(crate::proofs::DrawLaws::after_more))]
    pub fn draw(&mut self, a: u32) -> u32
        requires some { 0 < a }
        requires few { self.old.taken < 4294967295 }
        ensures value { result ≡ draw self.old.seed self.old.taken a }
        ensures below { result < a }
        ensures taken { self.new ≡ further self.old 1 }
    {
        self.x = (1103515245 * self.x + 12345) % 2147483648;
        self.taken += 1;
        (self.x / 65536 % u64::from(a)) as u32
    }
}

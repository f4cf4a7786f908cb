//! A linear congruential generator of 64 bits.
ghost use Rattle.std.specs.Prelude.{◌≡◌, ◌<◌, ◌%◌, ◌/◌, ◌^◌};
ghost use Rattle.seeded_numbers.specs.Random.{next_seed};

use std::marker::Model;

/// The seed of the next number. The multiplier and the increment are those of Knuth's MMIX.
#[derive(Drop)]
pub struct Random {
    seed: u64,
}

impl Model for Random {
    ghost use Rattle.std.specs.Prelude.{ℕ};

    ghost Value = { ℕ };

    ghost view = { λ r. r.seed };
}

impl Random {
    /// The numbers that a seed begins.
    pub fn new(seed: u64) -> Random
        ensures { result ≡ seed }
    {
        Random { seed }
    }

    /// The next number, below n: the remainder by n of the seed's upper 31 bits.
    #[tactic(auto, unfolding(crate::specs::Random::next_seed))]
    pub fn below(&mut self, n: u32) -> u32
        requires { 0 < n }
        ensures seed { self.new ≡ next_seed self.old }
        ensures number { result ≡ next_seed self.old / 2 ^ 33 % n }
        ensures below { result < n }
    {
        self.seed = self
            .seed
            .wrapping_mul(6364136223846793005)
            .wrapping_add(1442695040888963407);
        (self.seed >> 33) as u32 % n
    }
}

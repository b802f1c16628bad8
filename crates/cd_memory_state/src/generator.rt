ghost use Rattle.std.specs.Prelude.{◌≡◌, ◌<◌};
ghost use Rattle.cd_memory_state.specs.Generator.{step, drawn};

use std::marker::Model;

/// Draws numbers, the same ones for each seed. Contracts see the number that it goes on from.
#[derive(Drop)]
pub struct Generator {
    number: u64,
}

impl Model for Generator {
    ghost use Rattle.std.specs.Prelude.{ℕ};

    ghost Value = { ℕ };

    ghost view = { λ generator. generator.number };
}

impl Generator {
    /// Begins with a seed.
    pub fn new(seed: u64) -> Self
        ensures { result ≡ seed }
    {
        Generator { number: seed }
    }

    /// A number below `bound`.
    pub fn draw(&mut self, bound: u64) -> u64
        requires { 0 < bound }
        ensures number { self.new ≡ step self.old }
        ensures value { result ≡ drawn self.new bound }
        ensures range { result < bound }
    {
        self.number = self
            .number
            .wrapping_mul(6364136223846793005)
            .wrapping_add(1442695040888963407);
        self.number / 8589934592 % bound
    }
}

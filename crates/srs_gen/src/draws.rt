// Numbers that are drawn from a seed.
ghost use Rattle.std.specs.Prelude.{◌≡◌, ◌<◌, ◌^◌};
ghost use Rattle.srs_gen.specs.Draws.{next_state, draw_from};

use std::marker::Model;

// A linear congruential generator, seen as its state, a number below 2^31.
#[derive(Drop)]
pub(crate) struct Generator {
    state: u32,
}

impl Model for Generator {
    ghost use Rattle.std.specs.Prelude.{ℕ, ◌<◌, ◌^◌};

    ghost Value = { ℕ };

    ghost view = { λ generator. generator.state };

    ghost invariant = { λ generator. generator.state < 2 ^ 31 };
}

impl Generator {
    // The draws from the seed.
    pub(crate) fn new(seed: u32) -> Generator
        requires { seed < 2 ^ 31 }
        ensures { result ≡ seed }
    {
        Generator { state: seed }
    }

    // Draws a number below m. The low bits of such a generator recur soon, so they don't count.
    pub(crate) fn below(&mut self, m: u32) -> u32
        requires { 0 < m }
        ensures state { self.new ≡ next_state self.old }
        ensures drawn { result ≡ draw_from self.old m }
        ensures below { result < m }
    {
        self.state = after(self.state);
        self.state / 65536 % m
    }
}

// The state behind this one.
fn after(state: u32) -> u32
    requires { state < 2 ^ 31 }
    ensures state { result ≡ next_state state }
    ensures small { result < 2 ^ 31 }
{
    ((state as u64 * 1103515245 + 12345) % (1 << 31)) as u32
}

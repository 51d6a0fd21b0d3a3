ghost use Rattle.std.specs.Prelude.{◌≡◌, ◌<◌, ◌%◌};
ghost use Rattle.draws.specs.Draws.{drawn, next_state};

use std::marker::Model;

/// What a state is multiplied by.
pub const FACTOR: u64 = 6_364_136_223_846_793_005;

/// What is added then.
pub const INCREMENT: u64 = 1_442_695_040_888_963_407;

/// Numbers that are drawn one after another, from a state of 64 bits.
#[derive(Drop)]
pub struct Draws {
    x: u64,
}

impl Model for Draws {
    ghost use Rattle.std.specs.Prelude.{ℕ};

    ghost Value = { ℕ };

    ghost view = { λ d. d.x };
}

impl Draws {
    /// The draws that begin with this number.
    pub fn of(x: u64) -> Draws
        ensures { result ≡ x }
    {
        Draws { x }
    }

    /// The next draw: the high 31 bits of the next state.
    pub fn next(&mut self) -> u64
        ensures state { self.new ≡ next_state self.old }
        ensures draw { result ≡ drawn self.old }
    {
        self.x = self.x.wrapping_mul(FACTOR).wrapping_add(INCREMENT);
        self.x >> 33
    }

    /// The next draw by this modulus.
    pub fn below(&mut self, bound: u64) -> u64
        requires { 0 < bound }
        ensures state { self.new ≡ next_state self.old }
        ensures draw { result ≡ drawn self.old % bound }
        ensures bound { result < bound }
    {
        self.next() % bound
    }
}

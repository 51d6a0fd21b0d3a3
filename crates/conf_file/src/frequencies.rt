ghost use Rattle.std.specs.Prelude.{◌≡◌};
ghost use Rattle.std.specs.Option.{ForSome};
ghost use Rattle.discipline.specs.Frequency.{IsFrequency};

use std::marker::Model;

/// A frequency of a clock, in 2^-32 of the rate: at most 500 parts per million either way.
#[derive(Drop)]
pub struct Frequency {
    number: i32,
}

impl Model for Frequency {
    ghost use Rattle.std.specs.Prelude.{ℤ};
    ghost use Rattle.discipline.specs.Frequency.{IsFrequency};

    ghost Value = { ℤ };

    ghost view = { λ f. f.number };

    ghost invariant = { λ f. IsFrequency f.number };
}

impl Frequency {
    /// The frequency of this number.
    pub fn of(number: i32) -> Frequency
        requires { IsFrequency number }
        ensures { result ≡ number }
    {
        Frequency { number }
    }

    /// Its number.
    pub fn number(&self) -> i32
        ensures number { result ≡ self.now }
        ensures bounded { IsFrequency result }
    {
        self.number
    }
}

/// The number of a frequency that a file may tell.
pub fn number_of(told: Option<Frequency>) -> Option<i32>
    ensures number { result ≡ told }
    ensures bounded { ForSome result IsFrequency }
{
    match told {
        Some(frequency) => Some(frequency.number()),
        None => None,
    }
}

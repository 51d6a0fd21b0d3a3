ghost use Rattle.std.specs.Prelude.{ℕ, Option, List, [], ◌∷◌};
ghost use Rattle.edge_traits.specs.Told.{Grows};

/// A clock that tells how long it has been running, in units of 2^-32 seconds.
pub trait Clock {
    /// The readings so far, oldest first, where they are told. A clock takes no memory, so it may
    /// stop telling them.
    ghost readings: { Self → Option (List ℕ) };

    /// How long it has been running, in units of 2^-32 seconds.
    fn now(&mut self) -> u64
        ensures { Grows (readings self.old) (readings self.new) (result ∷ []) };
}

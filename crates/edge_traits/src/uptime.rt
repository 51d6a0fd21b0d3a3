ghost use Rattle.std.specs.Prelude.{◌≡◌, ◌≤◌};
ghost use Rattle.edge_traits.specs.Readings.{units_in};

use crate::clock::Clock;
use std::marker::Model;
use std::time;
use std::time::{Duration, Instant};

/// The time on the system's monotonic clock since a moment, in units of 2^-32 seconds, rounded down
/// and at most 2^64 - 1. It tells nothing of its readings; a clause sees the last one, at first 0.
#[derive(Drop)]
pub struct Uptime<S> {
    system: S,
    begin: Option<Instant>,
    last: u64,
}

impl<S> Model for Uptime<S> {
    ghost use Rattle.std.specs.Prelude.{ℕ};

    ghost Value = { ℕ };

    ghost view = { λ u. u.last };
}

impl<S: time::Clock> Uptime<S> {
    /// A clock that begins now, or where the system's clock can't be read, at its first reading.
    pub fn new(system: S) -> Uptime<S>
        ensures { result ≡ 0 }
    {
        let begin = Instant::now(&system).ok();
        Uptime::since(system, begin)
    }

    /// A clock that begins at `begin`, or where there is none, at its first reading.
    pub(crate) fn since(system: S, begin: Option<Instant>) -> Uptime<S>
        ensures { result ≡ 0 }
    {
        Uptime {
            system,
            begin,
            last: 0,
        }
    }
}

impl<S: time::Clock> Clock for Uptime<S> {
    ghost use Rattle.std.specs.Prelude.{None, [], ◌∷◌};
    ghost use Rattle.edge_traits.specs.Told.{Grows};

    ghost readings = { λ _. None };

    // Beside what every clock promises: it never falls. Where the system's clock can't be read, the
    // last reading is given again.
    fn now(&mut self) -> u64
        ensures told { Grows (⟦<Uptime<S> as Clock>⟧.readings self.old)
            (⟦<Uptime<S> as Clock>⟧.readings self.new) (result ∷ []) }
        ensures never_falls { self.old ≤ result }
        ensures last { self.new ≡ result }
    {
        if let Ok(at) = Instant::now(&self.system) {
            let begin = *self.begin.get_or_insert(at);
            let units = units_of(at.duration_since(begin)).min(u128::from(u64::MAX)) as u64;
            self.last = self.last.max(units);
        }
        self.last
    }
}

/// This time in units of 2^-32 seconds, rounded down. Whole seconds are shifted, since a quotient
/// of 128 bits takes ten times as long as one of 64.
pub(crate) fn units_of(span: Duration) -> u128
    ensures { result ≡ units_in span }
{
    let fraction = (u64::from(span.subsec_nanos()) << 32) / 1_000_000_000;
    (u128::from(span.as_secs()) << 32) + u128::from(fraction)
}

ghost use Rattle.std.specs.Prelude.{◌≡◌, ◌-◌, ◌<◌, ◌^◌, [], ◌∷◌, Some};
ghost use Rattle.edge_traits.specs.Told.{gained, Grows};
ghost use Rattle.edge_traits.specs.Counts.{next_count};
ghost use Rattle.edge_traits.specs.Memory.{IsNewClock, reading_at, readings_given, readings_of, readings_told};

use crate::clock::Clock;

/// A clock in memory. It gives its readings in turn, then the last one again, and 0 where it has
/// none. It tells its readings as long as 64 bits can count them.
#[derive(Drop)]
pub struct MemoryClock {
    readings: Vec<u64>,
    given: u64,
}

impl MemoryClock {
    /// A clock of these readings, in units of 2^-32 seconds.
    pub fn of(readings: Vec<u64>) -> MemoryClock
        ensures new { IsNewClock result }
        ensures readings { readings_of result ≡ readings.items }
        ensures given { readings_given result ≡ 0 }
        ensures told { ⟦<MemoryClock as Clock>⟧.readings result ≡ Some [] }
    {
        MemoryClock { readings, given: 0 }
    }

    /// The reading that comes next.
    fn next_reading(&self) -> u64
        ensures { result ≡ reading_at self.now.readings.items self.now.given }
    {
        let count = self.readings.len();
        if count == 0 {
            return 0;
        }
        let place = self.given.min(count as u64 - 1);
        self.readings[place as usize]
    }
}

impl Clock for MemoryClock {
    ghost readings = { λ c. readings_told c.readings.items c.given };

    fn now(&mut self) -> u64
        ensures due { result ≡ reading_at (readings_of self.old) (readings_given self.old) }
        ensures given { readings_given self.new ≡ next_count (readings_given self.old) }
        ensures told { Grows (⟦<MemoryClock as Clock>⟧.readings self.old)
            (⟦<MemoryClock as Clock>⟧.readings self.new) (result ∷ []) }
        ensures told_while_counted { readings_given self.new < 2 ^ 64 - 1
            → ⟦<MemoryClock as Clock>⟧.readings self.new
            ≡ gained (⟦<MemoryClock as Clock>⟧.readings self.old) (result ∷ []) }
        ensures readings_kept { readings_of self.new ≡ readings_of self.old }
    {
        let reading = self.next_reading();
        self.given = self.given.saturating_add(1);
        reading
    }
}

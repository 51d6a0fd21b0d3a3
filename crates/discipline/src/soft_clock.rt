ghost use Rattle.std.specs.Prelude.{◌≡◌, ◌^◌, pos, ◌≤ℤ◌, neg_ℤ};
ghost use Rattle.discipline.specs.SoftClock.{share_of, timestamp_of, clock_time, rebased};

use fixed_time::Ntp64;

/// For how long a slew acts after the clock's base: 64 seconds, in 32.32.
const SLEWED: u64 = 64 << 32;

/// A clock that is kept in software over a raw clock of moments.
#[derive(Clone, Copy, Debug, PartialEq, Eq)]
pub struct SoftClock {
    /// The moment from which it counts, in units of 2^-32 seconds.
    pub base: u64,
    /// Its time at that moment.
    pub ntp: Ntp64,
    /// How much faster it runs than the raw clock, in units of 2^-32.
    pub freq: i32,
    /// How much faster it runs besides, for 64 seconds from its base on, in units of 2^-32.
    pub slew: i32,
}

impl SoftClock {
    /// Its time at the moment; before its base it stands. Shares are rounded down.
    pub fn at(&self, moment: u64) -> Ntp64
        ensures { result.0 ≡ clock_time self.now moment }
    {
        let since = moment.saturating_sub(self.base);
        let drifted = share(since, self.freq);
        let slewed = share(since.min(SLEWED), self.slew);
        let passed = i128::from(self.ntp.0) + i128::from(since);
        wrapped(passed + drifted + slewed)
    }

    /// The same time counted on from another moment, without the slew.
    pub(crate) fn rebase(&self, now: u64) -> SoftClock
        ensures { result ≡ rebased self.now now }
    {
        SoftClock {
            base: now,
            ntp: self.at(now),
            freq: self.freq,
            slew: 0,
        }
    }
}

/// The share that a rate, in units of 2^-32, has of a time, rounded down.
fn share(time: u64, rate: i32) -> i128
    ensures value { result ≡ share_of time rate }
    ensures least { neg_ℤ (pos (2 ^ 63)) ≤ℤ result }
    ensures most { result ≤ℤ pos (2 ^ 63) }
{
    (i128::from(time) * i128::from(rate)).div_euclid(1 << 32)
}

/// The timestamp that is congruent to a time modulo 2^64.
fn wrapped(time: i128) -> Ntp64
    ensures { result.0 ≡ timestamp_of time }
{
    Ntp64(time.rem_euclid(1 << 64) as u64)
}

#[cfg(test)]
mod tests {
    use super::*;

    const SECOND: u64 = 1 << 32;

    fn clock(base: u64, freq: i32, slew: i32) -> SoftClock {
        SoftClock {
            base,
            ntp: Ntp64(1000),
            freq,
            slew,
        }
    }

    #[test]
    fn shares_are_rounded_down(rt: HostRuntime) {
        let cases = [
            (clock(0, 0, 0), SECOND, 1000 + SECOND, "no share"),
            (clock(SECOND, 7, 7), 0, 1000, "before its base"),
            (
                clock(0, 2_147_483, 0),
                SECOND,
                1000 + SECOND + 2_147_483,
                "500 ppm fast",
            ),
            (clock(0, 1, 0), 1, 1001, "under one unit fast"),
            (clock(0, -1, 0), 1, 1000, "under one unit slow"),
            (
                clock(0, 0, -1),
                65 * SECOND,
                1000 + 65 * SECOND - 64,
                "a slew of 64 seconds",
            ),
            (clock(0, 0, -1000), 2, 1001, "a slow slew for two units"),
        ];
        for (clock, moment, time, what) in cases {
            assert_eq!(rt; clock.at(moment), Ntp64(time), "{what}");
        }
    }

    #[test]
    fn it_passes_the_end_of_an_era(rt: HostRuntime) {
        let clock = SoftClock {
            base: 0,
            ntp: Ntp64(0xffff_ffff_8000_0000),
            freq: 0,
            slew: 0,
        };
        assert_eq!(rt; clock.at(SECOND), Ntp64(0x8000_0000));
    }
}

ghost use Rattle.std.specs.Prelude.{◌≡◌};
ghost use Rattle.access_rules.specs.Rates.{is_over, plain_rate, score_of};

/// What one arrival adds to a client's score.
pub const ARRIVAL_SCORE: u32 = 60_000;

/// The arrivals a minute that a client may keep up where nothing else is said.
pub const PLAIN_AVERAGE: u32 = 60;

/// The arrivals that it may have at once where nothing else is said.
pub const PLAIN_BURST: u32 = 20;

/// The least time between two RATE kiss codes where nothing else is said: 2 seconds, in 32.32.
pub const PLAIN_SPACING: u64 = 2 << 32;

/// How often a client may ask.
#[derive(Clone, Copy, Debug, PartialEq, Eq)]
pub struct Rate {
    /// The arrivals a minute that a client may keep up.
    pub average: u32,
    /// The arrivals that it may have at once.
    pub burst: u32,
    /// The least time between two RATE kiss codes, in 32.32 seconds.
    pub spacing: u64,
}

impl Rate {
    /// The rate where nothing else is said: 60 arrivals a minute, 20 at once, and 2 seconds between
    /// two kiss codes.
    pub fn plain() -> Rate
        ensures { result ≡ plain_rate }
    {
        Rate {
            average: PLAIN_AVERAGE,
            burst: PLAIN_BURST,
            spacing: PLAIN_SPACING,
        }
    }
}

/// The score of a client after an arrival, whose score was `old` at its last one, `dt` of 32.32
/// seconds ago: it leaks by the average rate, and stays at 2^32 - 1.
pub fn score(rate: &Rate, old: u32, dt: u64) -> u32
    ensures { result ≡ score_of rate.now old dt }
{
    let leak = u128::from(dt) * u128::from(rate.average) * 1000 >> 32;
    let left = u128::from(old).saturating_sub(leak);
    let score = (left + u128::from(ARRIVAL_SCORE)).min(u128::from(u32::MAX));
    score as u32
}

/// Whether the score is over that of a burst.
pub fn over(rate: &Rate, score: u32) -> bool
    ensures { result ≡ is_over rate.now score }
{
    u64::from(score) > u64::from(ARRIVAL_SCORE) * u64::from(rate.burst)
}

#[cfg(test)]
mod tests {
    use super::*;
    use std::test::Fail;

    const A_SECOND: u64 = 1 << 32;

    #[test]
    fn six_arrivals_at_once_are_over_a_burst_of_five(rt: HostRuntime) -> Result<(), Fail> {
        let rate = Rate {
            average: 60,
            burst: 5,
            spacing: 2 * A_SECOND,
        };
        let cases = [
            (0, 0, 60_000, false),
            (60_000, 0, 120_000, false),
            (120_000, 0, 180_000, false),
            (180_000, 0, 240_000, false),
            (240_000, 0, 300_000, false),
            (300_000, 0, 360_000, true),
            // A leak of 179,999.99.. counts as 179,999.
            (360_000, 3 * A_SECOND - 5, 240_001, false),
            (360_000, 1000 * A_SECOND, 60_000, false),
            (u32::MAX - 1, 0, u32::MAX, true),
        ];
        for (old, dt, now, is_over) in cases {
            assert_eq!(rt; score(&rate, old, dt), now, "{old} after {dt}");
            assert_eq!(rt; over(&rate, now), is_over, "{now}");
        }
        Ok(())
    }
}

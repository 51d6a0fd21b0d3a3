ghost use Rattle.std.specs.Prelude.{◌≡◌, ◌≤◌, ◌*◌, ◌^◌, ◌↔◌, IsSome, IfSome};
ghost use Rattle.recency.specs.Limits.{AreLimits};
ghost use Rattle.recency.specs.declared.limits.TheConstants.{MAX_DEPTH, PLAIN_MAXAGE, PLAIN_MAXDEPTH, PLAIN_MINAGE, PLAIN_MINDEPTH};

/// The most rows that any client list may have.
pub const MAX_DEPTH: u32 = 16_384;

/// The greatest age that a configuration may ask for, in seconds: some 68 years.
pub const MAX_AGE: u32 = 2_147_483_647;

/// The plain mindepth, in rows.
pub const PLAIN_MINDEPTH: u32 = 600;

/// The plain maxdepth, in rows.
pub const PLAIN_MAXDEPTH: u32 = 1_024;

/// The plain minage, in seconds.
pub const PLAIN_MINAGE: u32 = 64;

/// The plain maxage, in seconds.
pub const PLAIN_MAXAGE: u32 = 3_600;

/// How many rows a client list may have, and how old they get. Our own rule, after the `mru` line
/// of NTPsec's configuration. Ages are in 32.32 seconds since the last arrival.
#[derive(Clone, Copy, Debug, PartialEq, Eq)]
pub struct Limits {
    /// With fewer rows than this a new client is added, and no row goes.
    pub mindepth: u32,
    /// The list never has more rows than this: 1 to 16,384.
    pub maxdepth: u32,
    /// In a list of maxdepth rows the oldest row of this age makes room for a new client.
    pub minage: u64,
    /// Above mindepth a row of this age goes.
    pub maxage: u64,
    pub ghost some: { 1 ≤ maxdepth },
    pub ghost most: { maxdepth ≤ MAX_DEPTH },
    pub ghost depths: { mindepth ≤ maxdepth },
    pub ghost ages: { minage ≤ maxage },
}

impl Limits {
    /// These limits, or None where they don't fit together.
    pub fn of(mindepth: u32, maxdepth: u32, minage: u64, maxage: u64) -> Option<Limits>
        ensures fit { IsSome result ↔ AreLimits mindepth maxdepth minage maxage }
        ensures mindepth { IfSome result (λ limits. limits.mindepth ≡ mindepth) }
        ensures maxdepth { IfSome result (λ limits. limits.maxdepth ≡ maxdepth) }
        ensures minage { IfSome result (λ limits. limits.minage ≡ minage) }
        ensures maxage { IfSome result (λ limits. limits.maxage ≡ maxage) }
    {
        if maxdepth < 1 || maxdepth > MAX_DEPTH {
            return None;
        }
        if mindepth > maxdepth || minage > maxage {
            return None;
        }
        Some(Limits {
            mindepth,
            maxdepth,
            minage,
            maxage,
        })
    }

    /// The limits where nothing else is said: 600 to 1,024 rows, 64 to 3,600 seconds.
    pub fn plain() -> Limits
        ensures mindepth { result.mindepth ≡ PLAIN_MINDEPTH }
        ensures maxdepth { result.maxdepth ≡ PLAIN_MAXDEPTH }
        ensures minage { result.minage ≡ PLAIN_MINAGE * 2 ^ 32 }
        ensures maxage { result.maxage ≡ PLAIN_MAXAGE * 2 ^ 32 }
    {
        Limits {
            mindepth: PLAIN_MINDEPTH,
            maxdepth: PLAIN_MAXDEPTH,
            minage: u64::from(PLAIN_MINAGE) << 32,
            maxage: u64::from(PLAIN_MAXAGE) << 32,
        }
    }
}

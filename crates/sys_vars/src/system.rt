ghost use Rattle.std.specs.Prelude.{◌≤◌};

use discipline::State;
use fixed_time::{Ntp64, Span};

/// The precision of our clock, in log2 seconds: about a microsecond (our own rule).
pub const PRECISION: i8 = -20;

/// The values of the system (RFC 5905, section 11.1), as they are published.
#[derive(Clone, Copy, Debug, PartialEq, Eq)]
pub struct System {
    /// The leap indicator: 3 says that the clock is not synchronized.
    pub leap: u8,
    /// The stratum: 1 for a primary server, 16 for one that is not synchronized.
    pub stratum: u8,
    /// The precision of the clock, in log2 seconds.
    pub precision: i8,
    /// The delay of the round trip to the primary source, in 32.32 seconds.
    pub root_delay: u64,
    /// The dispersion up to the primary source at the moment `at`, in 32.32 seconds.
    pub root_disp: u64,
    /// The reference identifier.
    pub refid: [u8; 4],
    /// When the clock was last set.
    pub reference: Ntp64,
    /// The moment of these values, in 32.32 seconds.
    pub at: u64,
    /// The association of the system peer, or 0.
    pub peer: u16,
    /// The poll interval, in log2 seconds.
    pub poll: u8,
    /// The combined offset.
    pub offset: Span,
    /// The frequency of the clock, in units of 2^-32.
    pub freq: i32,
    /// The combined jitter, in 32.32 seconds.
    pub jitter: u64,
    /// The state of the clock discipline.
    pub state: State,
    /// The clock source of the system status word (RFC 9327, section 3.1).
    pub source: u8,
    /// How many events came, at most 15.
    pub events: u8,
    /// The code of the last event (RFC 9327, section 3.1).
    pub code: u8,
    pub ghost leap_in: { leap ≤ 3 },
    pub ghost source_in: { source ≤ 63 },
    pub ghost events_in: { events ≤ 15 },
    pub ghost code_in: { code ≤ 15 },
}

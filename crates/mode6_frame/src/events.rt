//! The codes of the last event in the system status word (RFC 9327, section 3.1, table 4) and in the
//! peer status word (section 3.2, table 7).

/// The most events that are counted: the count has four bits.
pub const MAX_EVENTS: u8 = 15;

/// No event is told, in either word.
pub const NO_EVENT: u8 = 0;

/// System: there is no file of the frequency.
pub const NO_DRIFT_FILE: u8 = 1;

/// System: the frequency was stepped.
pub const FREQUENCY_STEPPED: u8 = 2;

/// System: a spike was ignored.
pub const SPIKE_DETECTED: u8 = 3;

/// System: the frequency is being measured.
pub const FREQUENCY_TRAINING: u8 = 4;

/// System: the clock is synchronized.
pub const CLOCK_SYNCHRONIZED: u8 = 5;

/// System: it restarted.
pub const SYSTEM_RESTARTED: u8 = 6;

/// System: an offset is over the panic threshold.
pub const PANIC_STOP: u8 = 7;

/// System: there is no system peer.
pub const NO_SYSTEM_PEER: u8 = 8;

/// System: a leap second is due at the end of this month.
pub const LEAP_ARMED: u8 = 9;

/// System: no leap second is due any more.
pub const LEAP_DISARMED: u8 = 10;

/// System: a leap second was inserted or deleted.
pub const LEAP_DONE: u8 = 11;

/// System: the clock was stepped.
pub const CLOCK_STEPPED: u8 = 12;

/// System: the status of the kernel's loop changed.
pub const KERNEL_CHANGED: u8 = 13;

/// System: a table of leap seconds was loaded.
pub const LEAP_TABLE_LOADED: u8 = 14;

/// System: the table of leap seconds is outdated.
pub const LEAP_TABLE_OUTDATED: u8 = 15;

/// Peer: the association was mobilized.
pub const MOBILIZED: u8 = 1;

/// Peer: the association was demobilized.
pub const DEMOBILIZED: u8 = 2;

/// Peer: it is no longer reachable.
pub const UNREACHABLE: u8 = 3;

/// Peer: it has become reachable.
pub const REACHABLE: u8 = 4;

/// Peer: the association restarted or timed out.
pub const RESTARTED: u8 = 5;

/// Peer: no reply came.
pub const NO_REPLY: u8 = 6;

/// Peer: it answered with the kiss code RATE.
pub const RATE_EXCEEDED: u8 = 7;

/// Peer: it answered with the kiss code DENY.
pub const ACCESS_DENIED: u8 = 8;

/// Peer: it announced a leap second at the end of this month.
pub const LEAP_VOTED: u8 = 9;

/// Peer: it became the system peer.
pub const BECAME_SYSTEM_PEER: u8 = 10;

/// Peer: its reference clock had an event.
pub const CLOCK_EVENT: u8 = 11;

/// Peer: its authentication failed.
pub const AUTHENTICATION_FAILED: u8 = 12;

/// Peer: the clock filter suppressed a spike.
pub const SPIKE_SUPPRESSED: u8 = 13;

/// Peer: the interleaved mode began.
pub const INTERLEAVED: u8 = 14;

/// Peer: it recovered from an error of the interleaved mode.
pub const INTERLEAVE_RECOVERED: u8 = 15;

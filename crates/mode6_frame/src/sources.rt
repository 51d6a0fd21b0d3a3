//! The clock sources of the system status word (RFC 9327, section 3.1, table 3).

/// None, or one that is not known.
pub const NO_SOURCE: u8 = 0;

/// A calibrated atomic clock.
pub const ATOMIC_CLOCK: u8 = 1;

/// A radio of very low or low frequency.
pub const LOW_RADIO: u8 = 2;

/// A radio of high frequency.
pub const HIGH_RADIO: u8 = 3;

/// A satellite.
pub const SATELLITE: u8 = 4;

/// The local net, by another protocol.
pub const LOCAL_NET: u8 = 5;

/// Servers, by NTP over UDP.
pub const UDP_NTP: u8 = 6;

/// Servers, by the time protocol over UDP.
pub const UDP_TIME: u8 = 7;

/// Someone's eye and wristwatch.
pub const WRISTWATCH: u8 = 8;

/// A telephone modem.
pub const TELEPHONE_MODEM: u8 = 9;

//! The NTP packet header: 48 octets to a value, and back (RFC 5905, section 7.3).
//!
//! Layer 3. Stands on: `fixed_time`.
//! Promises: a header is read exactly where the octets spell one; what is written is read back.
#![tactic(auto)]

pub mod leap_version_mode;
pub mod packet;
pub mod reading;
pub mod writing;

pub use leap_version_mode::{
    CURRENT_VERSION, LEAP_UNSYNCHRONIZED, MIN_VERSION, MODE_BROADCAST, MODE_CLIENT, MODE_CONTROL,
    MODE_SERVER, MODE_SYMMETRIC_ACTIVE, first_octet, leap_in, mode_in, version_in,
};
pub use packet::{
    HEADER_LEN, Header, KISS_CODE_LEN, MAX_SYNCHRONIZED_STRATUM, PacketFault,
    UNSYNCHRONIZED_STRATUM,
};
pub use reading::read;
pub use writing::write;

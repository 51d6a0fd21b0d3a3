//! What follows the NTP header, extension fields and the MAC, and with it whole packets (RFC 5905,
//! sections 7.3 and 7.5).
//!
//! Layer 3. Stands on: `ntp_packet`, `mac_keys`, `edge_traits`.
//! Promises: a packet is read exactly where the octets are a header, fields and a MAC, end to end;
//! what its MAC shows is told exactly.
#![tactic(auto)]

pub mod appending;
pub mod checking;
pub mod packet;
pub mod parts;
mod places;
pub mod reading;
pub mod splitting;

pub use appending::{append_mac, append_nak};
pub use checking::auth;
pub use packet::{JudgedPacket, Packet, ReadFault};
pub use parts::{KEY_ID_LEN, MAX_MAC_LEN, MIN_FIELD_LEN, Mac, Trailer, TrailerFault};
pub use reading::{judge_packet, read_packet};
pub use splitting::split;

use fixed_time::{Ntp64, Short};

/// The octets of a header.
pub const HEADER_LEN: usize = 48;

/// The octets of a kiss code, which stands in the reference identifier (RFC 5905, section 7.4).
pub const KISS_CODE_LEN: usize = 4;

/// The greatest stratum of a clock that is synchronized (RFC 5905, section 7.3, figure 11).
pub const MAX_SYNCHRONIZED_STRATUM: u8 = 15;

/// The stratum of a clock that is not synchronized (RFC 5905, section 7.3, figure 11). A packet has
/// 0 in its place.
pub const UNSYNCHRONIZED_STRATUM: u8 = 16;

/// The header of an NTP packet, in the order of its octets (RFC 5905, section 7.3).
#[derive(Clone, Copy, Debug, PartialEq, Eq)]
pub struct Header {
    /// The leap indicator, of 2 bits: 3 says that the clock is not synchronized.
    pub leap: u8,
    /// The version number, of 3 bits.
    pub version: u8,
    /// The mode, of 3 bits: 3 is a client's request, 4 a server's reply.
    pub mode: u8,
    /// The stratum: 0 unspecified or a kiss code, 1 a primary server, 2 to 15 a secondary one.
    pub stratum: u8,
    /// The longest interval between packets, in log2 seconds.
    pub poll: i8,
    /// The precision of the sender's clock, in log2 seconds.
    pub precision: i8,
    /// The delay of the round trip to the primary source.
    pub root_delay: Short,
    /// The dispersion that has grown up to the primary source.
    pub root_disp: Short,
    /// The reference identifier: a kiss code at stratum 0, a source's name at 1, an address above.
    pub refid: [u8; KISS_CODE_LEN],
    /// When the sender's clock was last set.
    pub reference: Ntp64,
    /// In a reply, when the request left its client.
    pub origin: Ntp64,
    /// In a reply, when the request reached the server.
    pub receive: Ntp64,
    /// When this packet left its sender.
    pub transmit: Ntp64,
}

/// Why octets are no header, in the order of the tests.
#[derive(Clone, Copy, Debug, PartialEq, Eq)]
pub enum PacketFault {
    /// There are fewer than 48 octets.
    Short,
    /// The version is not 1 to 4.
    BadVersion,
    /// The mode is not 1 to 5.
    BadMode,
}

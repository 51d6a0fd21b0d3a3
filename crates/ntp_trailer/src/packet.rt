use crate::parts::{Trailer, TrailerFault};
use mac_keys::Auth;
use ntp_packet::{Header, PacketFault};

/// A packet: its header, and where what follows it stands.
#[derive(Clone, Copy, Debug, PartialEq, Eq)]
pub struct Packet {
    pub header: Header,
    pub trailer: Trailer,
}

/// A packet's header, and what its MAC shows.
#[derive(Clone, Copy, Debug, PartialEq, Eq)]
pub struct JudgedPacket {
    pub header: Header,
    pub auth: Auth,
}

/// Why octets are no packet, in the order of the tests.
#[derive(Clone, Copy, Debug, PartialEq, Eq)]
pub enum ReadFault {
    /// They do not begin with a header.
    BadHeader(PacketFault),
    /// What follows the header is no extension fields and MAC.
    BadTrailer(TrailerFault),
}

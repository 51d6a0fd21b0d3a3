ghost use Rattle.std.specs.Prelude.{◌≤◌};
ghost use Rattle.mru_items.specs.Queries.{IsRead};

use fixed_time::Ntp64;
use mac_keys::Auth;
use mode6_frame::Head;
use mru_items::ReadRequest;
use net_addr::Addr;
use sys_vars::Asked;

/// What a client's request for the time says that its reply depends on.
#[derive(Clone, Copy, Debug, PartialEq, Eq)]
pub struct Ask {
    /// Where the request came from.
    pub from: Addr,
    /// The version of the request, 1 to 4.
    pub version: u8,
    /// The poll interval of the client, in log2 seconds.
    pub poll: i8,
    /// When the request left its client, by the client's clock.
    pub transmit: Ntp64,
    /// What the MAC of the request shows.
    pub auth: Auth,
    pub ghost version_least: { 1 ≤ version },
    pub ghost version_most: { version ≤ 4 },
}

/// What a read of the client list says that its answer depends on.
#[derive(Drop)]
pub struct ReadAsk {
    /// Where the request came from.
    pub from: Addr,
    /// What its answer repeats; the status is still to be filled in.
    pub head: Head,
    /// The page that it asks for.
    pub request: ReadRequest,
    pub ghost read: { ∥ IsRead request ∥₁ },
}

/// Why a datagram gets no answer, whatever the server's state.
#[derive(Clone, Copy, Debug, PartialEq, Eq)]
pub enum Unheard {
    /// It is no packet: 1 it is too short, 2 its version is not served.
    Packet(u8),
    /// What follows its header is refused: 1 it is no whole words, 2 a field is too short, 3 a
    /// field is too long, 4 what remains is no MAC.
    Trailer(u8),
    /// It is no control message: 1 it is too short, 2 its version is not served, 3 its mode is
    /// another, 4 its count is too large.
    Frame(u8),
    /// It is of this mode, which is not served.
    Unserved(u8),
    /// It is a control message with the response, the error or the more bit.
    NotRequest,
    /// It is a read of the client list with no good nonce.
    BadNonce,
}

/// What a datagram asks for.
#[derive(Drop)]
pub enum Class {
    /// Nothing that is answered.
    Silent(Unheard),
    /// The time.
    Time(Ask),
    /// What a control message may ask for.
    Look(Asked),
    /// A page of the client list.
    Read(ReadAsk),
}

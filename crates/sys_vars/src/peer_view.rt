ghost use Rattle.std.specs.Prelude.{◌≤◌};

use clock_filter::{STAGES, Sample};
use fixed_time::{Ntp64, Span};
use net_addr::Addr;

/// What is published of a peer, a server that is asked for the time: what its last accepted reply
/// told, and what was measured (RFC 5905, sections 9.1 and 10). Times without another unit are in
/// 32.32 seconds.
#[derive(Clone, Copy, Debug, PartialEq, Eq)]
pub struct PeerView {
    /// Its association number, from 1.
    pub assoc: u16,
    /// Where it is.
    pub addr: Addr,
    /// The id of its key, or 0 for none.
    pub key: u32,
    /// The poll exponent by which it is asked, in log2 seconds.
    pub hpoll: u8,
    /// The poll exponent that it told, in log2 seconds.
    pub ppoll: i8,
    /// The mode of its last accepted reply, 0 before the first.
    pub pmode: u8,
    /// The leap indicator: 3 says that its clock is not synchronized.
    pub leap: u8,
    /// The stratum: 16 says that its clock is not synchronized.
    pub stratum: u8,
    /// The precision of its clock, in log2 seconds.
    pub precision: i8,
    /// The delay of its round trip to the primary source.
    pub root_delay: u64,
    /// The dispersion that has grown from the primary source to it.
    pub root_disp: u64,
    /// Its reference identifier.
    pub refid: [u8; 4],
    /// When its clock was last set.
    pub reference: Ntp64,
    /// The destination timestamp of its last accepted reply.
    pub received: Ntp64,
    /// The reach register: a bit for each of the last eight requests, the newest in bit 0.
    pub reach: u8,
    /// Its offset, 0 before the first estimate.
    pub offset: Span,
    /// The delay of the round trip to it, 0 before the first estimate.
    pub delay: u64,
    /// The dispersion of its samples, 16 seconds before the first estimate.
    pub disp: u64,
    /// The jitter of its samples, 0 before the first estimate.
    pub jitter: u64,
    /// Its latest samples, newest first.
    pub stages: [Option<Sample>; STAGES],
    /// Whether the MAC of its last accepted reply was good.
    pub auth_ok: bool,
    /// The selection code of the peer status word (RFC 9327, section 3.2).
    pub selection: u8,
    /// How many events came, at most 15.
    pub events: u8,
    /// The code of the last event (RFC 9327, section 3.2).
    pub code: u8,
    pub ghost leap_in: { leap ≤ 3 },
    pub ghost selection_in: { selection ≤ 7 },
    pub ghost events_in: { events ≤ 15 },
    pub ghost code_in: { code ≤ 15 },
}

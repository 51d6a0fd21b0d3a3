ghost use Rattle.std.specs.Prelude.{◌≡◌, ◌≤◌, length};
ghost use Rattle.server_core.specs.Reply.{rate_header, rate_reply_of};

use crate::class::Ask;
use edge_traits::Octets;
use fixed_time::{Ntp64, Short};
use ntp_packet::{HEADER_LEN, Header, KISS_CODE_LEN, LEAP_UNSYNCHRONIZED, MODE_SERVER};
use sys_vars::PRECISION;

/// The kiss code RATE: the client is to slow down (RFC 5905, section 7.4).
pub const RATE: [u8; KISS_CODE_LEN] = *b"RATE";

/// The reply to a client that is over its rate: the kiss code RATE, the request's transmit time in
/// place of each time, and no MAC.
pub fn rate_reply(ask: &Ask) -> Octets
    ensures value { result ≡ rate_reply_of ask.now }
    ensures len { length result ≡ HEADER_LEN }
{
    let mut reply = Octets::new();
    rate_reply_into(ask, &mut reply);
    reply
}

/// Puts that reply into octets that are lent, in place of what they have.
#[tactic(auto, unfolding(crate::specs::Reply::rate_reply_of))]
pub fn rate_reply_into(ask: &Ask, into: &mut Octets)
    ensures value { into.new ≡ rate_reply_of ask.now }
    ensures len { length into.new ≡ HEADER_LEN }
{
    into.clear();
    into.put(&ntp_packet::write(&rate_header(ask)));
}

#[tactic(auto, unfolding(crate::specs::Reply::rate_header))]
fn rate_header(ask: &Ask) -> Header
    ensures value { result ≡ rate_header ask.now }
    ensures leap { result.leap ≤ 3 }
    ensures version { result.version ≤ 4 }
    ensures mode { result.mode ≡ MODE_SERVER }
{
    Header {
        leap: LEAP_UNSYNCHRONIZED,
        version: ask.version,
        mode: MODE_SERVER,
        stratum: 0,
        poll: ask.poll,
        precision: PRECISION,
        root_delay: Short(0),
        root_disp: Short(0),
        refid: RATE,
        reference: Ntp64(0),
        origin: ask.transmit,
        receive: ask.transmit,
        transmit: ask.transmit,
    }
}

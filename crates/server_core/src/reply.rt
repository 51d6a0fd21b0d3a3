ghost use Rattle.std.specs.Prelude.{◌≡◌, ◌+◌, ◌≤◌, length};
ghost use Rattle.fixed_time.specs.Time.{to_short_of};
ghost use Rattle.ntp_packet.specs.Packet.{spelled_header};
ghost use Rattle.server_core.specs.Reply.{shown_stratum, root_dispersion_at, reply_header, ended, time_reply_of, HasKey, IsReplyLength, Shows};

use crate::class::Ask;
use discipline::SoftClock;
use edge_traits::Octets;
use fixed_time::{MAX_DISPERSION, PHI, Short, drift, to_short};
use mac_keys::{Auth, KeyTable};
use ntp_packet::{HEADER_LEN, Header, MODE_SERVER, UNSYNCHRONIZED_STRATUM};
use ntp_trailer::{append_mac, append_nak};
use sys_vars::System;

/// What a reply is made of: the system and the clock of one record.
#[derive(Clone, Copy, Debug, PartialEq, Eq)]
pub struct Basis {
    pub system: System,
    pub clock: SoftClock,
}

/// The reply to a request that came at the moment `came` and is answered at the moment `sent`.
/// Its transmit time is that of the later moment.
///
/// Where the request has a good MAC, a MAC with the same key ends the reply; where it has a bad
/// one, a crypto-NAK does (RFC 5905, section 9.2).
pub fn time_reply(basis: &Basis, ask: &Ask, keys: &KeyTable, came: u64, sent: u64) -> Octets
    requires key { HasKey keys.now ask.now.auth }
    ensures value { result ≡ time_reply_of basis.now ask.now keys.now came sent }
    ensures len { IsReplyLength ask.now.auth (length result) }
    ensures shown { Shows keys.now ask.now.auth result }
{
    let mut reply = Octets::new();
    time_reply_into(basis, ask, keys, came, sent, &mut reply);
    reply
}

/// Puts that reply into octets that are lent, in place of what they have.
pub fn time_reply_into(
    basis: &Basis,
    ask: &Ask,
    keys: &KeyTable,
    came: u64,
    sent: u64,
    into: &mut Octets,
)
    requires key { HasKey keys.now ask.now.auth }
    ensures value { into.new ≡ time_reply_of basis.now ask.now keys.now came sent }
    ensures len { IsReplyLength ask.now.auth (length into.new) }
    ensures shown { Shows keys.now ask.now.auth into.new }
{
    into.clear();
    into.put(&ntp_packet::write(&header_of(basis, ask, came, sent)));
    end(into, ask.auth, keys);
}

/// Appends what follows the header of a reply.
fn end(reply: &mut Octets, auth: Auth, keys: &KeyTable)
    requires header { length reply.old ≡ HEADER_LEN }
    requires key { HasKey keys.now auth }
    ensures value { reply.new ≡ ended keys.now auth reply.old }
    ensures len { IsReplyLength auth (length reply.new) }
    ensures shown { Shows keys.now auth reply.new }
{
    match auth {
        Auth::Absent => {}
        Auth::Bad => append_nak(reply),
        Auth::Good(id) => end_by_key(reply, id, keys),
    }
}

/// Appends the MAC of the key with this id to the header of a reply.
fn end_by_key(reply: &mut Octets, id: u32, keys: &KeyTable)
    requires header { length reply.old ≡ HEADER_LEN }
    requires key { HasKey keys.now (Auth.Good id) }
    ensures value { reply.new ≡ ended keys.now (Auth.Good id) reply.old }
    ensures len { IsReplyLength (Auth.Good id) (length reply.new) }
    ensures shown { Shows keys.now (Auth.Good id) reply.new }
{
    append_mac(keys.find(id).unwrap(), reply);
}

fn header_of(basis: &Basis, ask: &Ask, came: u64, sent: u64) -> Header
    ensures value { result ≡ reply_header basis.now ask.now came sent }
    ensures leap { result.leap ≤ 3 }
    ensures version { result.version ≤ 4 }
    ensures mode { result.mode ≡ MODE_SERVER }
{
    Header {
        leap: basis.system.leap,
        version: ask.version,
        mode: MODE_SERVER,
        stratum: stratum_shown(basis.system.stratum),
        poll: ask.poll,
        precision: basis.system.precision,
        root_delay: to_short(basis.system.root_delay),
        root_disp: root_dispersion(&basis.system, came),
        refid: basis.system.refid,
        reference: basis.system.reference,
        origin: ask.transmit,
        receive: basis.clock.at(came),
        transmit: basis.clock.at(came.max(sent)),
    }
}

/// The stratum as a packet has it: 0 for a server that is not synchronized.
fn stratum_shown(stratum: u8) -> u8
    ensures { result ≡ shown_stratum stratum }
{
    if stratum == UNSYNCHRONIZED_STRATUM {
        0
    } else {
        stratum
    }
}

/// The root dispersion at the moment, as a packet has it.
fn root_dispersion(system: &System, moment: u64) -> Short
    ensures { result.0 ≡ to_short_of (root_dispersion_at system.now moment) }
{
    let grown = drift(moment.saturating_sub(system.at), PHI);
    to_short(system.root_disp.saturating_add(grown).min(MAX_DISPERSION))
}

ghost use Rattle.std.specs.Prelude.{◌≡◌, ◌≢◌, ◌≤◌, ◌<◌, length, [], IfOk, IfErr};
ghost use Rattle.ntp_packet.specs.FirstOctet.{mode_of};
ghost use Rattle.sys_vars.specs.declared.context.Context.{Context};
ghost use Rattle.server_core.specs.declared.class.Class.{Class};
ghost use Rattle.server_core.specs.Class.{IsClass, IsAskOf, packet_number, trailer_number, unheard_by};
ghost use Rattle.server_core.specs.Control.{IsReadRequest};

use crate::class::{Ask, Class, Unheard};
use crate::control::classify_control;
use mac_keys::{Auth, KeyTable};
use net_addr::Addr;
use ntp_packet::{Header, MODE_CLIENT, MODE_CONTROL, PacketFault, mode_in};
use ntp_trailer::{ReadFault, TrailerFault, judge_packet};
use std::alloc::{AllocError, Global};
use sys_vars::Context;

/// What a datagram from this address that came in this context asks for, where these keys are
/// known. Memory is taken for requests to read variables or the client list alone.
pub fn classify(
    alloc: Global,
    bytes: &[u8],
    from: &Addr,
    keys: &KeyTable,
    context: &Context,
) -> Result<Class, AllocError>
    ensures found { IfOk result (λ class. IsClass bytes.now from.now keys.now context.now class) }
    ensures only { (class : Class) → IsClass bytes.now from.now keys.now context.now class
        → IfOk result (λ it. it ≡ class) }
    ensures no_memory { IfErr result (λ _. IsReadRequest bytes.now) }
{
    if bytes.is_empty() {
        return Ok(Class::Silent(Unheard::Packet(1)));
    }
    match mode_in(bytes) {
        MODE_CLIENT => Ok(classify_client(bytes, from, keys)),
        MODE_CONTROL => classify_control(alloc, bytes, from, context),
        mode => Ok(Class::Silent(Unheard::Unserved(mode))),
    }
}

/// What a datagram of a client's mode asks for.
fn classify_client(bytes: &[u8], from: &Addr, keys: &KeyTable) -> Class
    requires some { bytes.now ≢ [] }
    requires mode { mode_of bytes.now ≡ MODE_CLIENT }
    ensures found { (context : Context) → IsClass bytes.now from.now keys.now context result }
    ensures only { (context : Context) → (class : Class)
        → IsClass bytes.now from.now keys.now context class → result ≡ class }
{
    match judge_packet(keys, bytes) {
        Err(fault) => Class::Silent(unheard_by(fault)),
        Ok(judged) => Class::Time(ask_of(&judged.header, from, judged.auth)),
    }
}

/// Why octets that are no packet are not heard.
fn unheard_by(fault: ReadFault) -> Unheard
    ensures { result ≡ unheard_by fault }
{
    match fault {
        ReadFault::BadHeader(fault) => Unheard::Packet(packet_number(fault)),
        ReadFault::BadTrailer(fault) => Unheard::Trailer(trailer_number(fault)),
    }
}

fn packet_number(fault: PacketFault) -> u8
    ensures { result ≡ packet_number fault }
{
    match fault {
        PacketFault::Short => 1,
        PacketFault::BadVersion => 2,
        PacketFault::BadMode => 3,
    }
}

fn trailer_number(fault: TrailerFault) -> u8
    ensures { result ≡ trailer_number fault }
{
    match fault {
        TrailerFault::Ragged => 1,
        TrailerFault::FieldShort => 2,
        TrailerFault::FieldLong => 3,
        TrailerFault::BadRemainder => 4,
    }
}

fn ask_of(header: &Header, from: &Addr, auth: Auth) -> Ask
    requires least { 1 ≤ header.now.version }
    requires most { header.now.version ≤ 4 }
    ensures { IsAskOf header.now from.now auth result }
{
    Ask {
        from: *from,
        version: header.version,
        poll: header.poll,
        transmit: header.transmit,
        auth,
    }
}

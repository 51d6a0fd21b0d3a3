ghost use Rattle.server_core.specs.Responses.{IsGivable};

use edge_traits::{MAX_OCTETS, Octets, Salt};
use fixed_time::Ntp64;
use mac_keys::{KeyTable, read_keys};
use net_addr::{Addr, Ip};
use recency::Limits;
use server_core::{Book, Response, Silence, Unheard, rate_reply, respond, time_reply};
use std::alloc::Global;
use std::test::Fail;
use sys_vars::{Context, Record};

const SECOND: u64 = 1 << 32;

const CLIENT: Addr = Addr {
    ip: Ip::V4([10, 0, 0, 1]),
    port: 40000,
};

/// 1 January 1970 (RFC 5905, figure 4).
const ORIGIN: Ntp64 = Ntp64(0x83aa_7e80_0000_0000);

/// A client's request: version 4, poll 6, precision -23, transmit time ORIGIN.
const REQUEST: [u8; 48] = *b"\x23\x00\x06\xe9\
    \x00\x00\x00\x00\x00\x00\x00\x00\x00\x00\x00\x00\x00\x00\x00\x00\x00\x00\x00\x00\x00\x00\
    \x00\x00\x00\x00\x00\x00\x00\x00\x00\x00\x00\x00\x00\x00\x83\xaa\x7e\x80\x00\x00\x00\x00";

/// The reply to it of a server that knows no time yet, one second after ORIGIN.
const REPLY: [u8; 48] = *b"\xe4\x00\x06\xec\x00\x00\x00\x00\x00\x10\x00\x00INIT\
    \x00\x00\x00\x00\x00\x00\x00\x00\x83\xaa\x7e\x80\x00\x00\x00\x00\
    \x83\xaa\x7e\x81\x00\x00\x00\x00\x83\xaa\x7e\x81\x00\x00\x00\x00";

/// The MAC of REQUEST with the key 7 of the secret `secret`, for MD5, by Python's hashlib.
const MAC: [u8; 20] = *b"\x00\x00\x00\x07\
    \x76\x8a\x48\x46\xbd\x50\xba\x51\xeb\x05\xb0\xfa\xe4\x23\xe4\xba";

/// That of REPLY, by the same.
const REPLY_MAC: [u8; 20] = *b"\x00\x00\x00\x07\
    \xa2\x7f\xec\xd7\x0a\x9e\x37\x05\xd6\x16\x84\x4d\x71\xfa\x91\xcb";

/// An extension field.
const FIELD: [u8; 16] = *b"\x00\x02\x00\x10field of 16.";

/// The MAC of REQUEST and FIELD, by the same.
const MAC_WITH_FIELD: [u8; 20] = *b"\x00\x00\x00\x07\
    \xb5\xa6\xdd\xca\xa0\x81\x8f\x48\x0d\xb9\x44\x4e\x4c\x0d\x42\x5b";

/// A crypto-NAK (RFC 5905, section 9.2).
const NAK: [u8; 4] = [0; 4];

/// A control request: read the variable `stratum`, version 2, sequence 1.
const READ_STRATUM: [u8; 20] = *b"\x16\x02\x00\x01\x00\x00\x00\x00\x00\x00\x00\x07stratum\x00";

/// The answer to it of a server that knows no time yet.
const STRATUM: [u8; 24] = *b"\x16\x82\x00\x01\xc0\x11\x00\x00\x00\x00\x00\x0cstratum=16\r\n";

/// A control request: read the status of the system.
const READ_STATUS: [u8; 12] = *b"\x16\x01\x00\x01\x00\x00\x00\x00\x00\x00\x00\x00";

/// The answer to it of a server that knows no time yet and has no peers.
const STATUS: [u8; 12] = *b"\x16\x81\x00\x01\xc0\x11\x00\x00\x00\x00\x00\x00";

fn octets_of(bytes: &[u8]) -> Octets {
    let mut octets = Octets::new();
    append(&mut octets, bytes);
    octets
}

/// Appends these octets, as many as there is room for.
fn append(octets: &mut Octets, bytes: &[u8]) {
    for byte in bytes {
        if octets.len() < MAX_OCTETS {
            octets.push(*byte);
        }
    }
}

/// A header with a field and a MAC behind it.
fn behind(header: &[u8], field: &[u8], mac: &[u8]) -> Octets {
    let mut octets = octets_of(header);
    append(&mut octets, field);
    append(&mut octets, mac);
    octets
}

/// These octets, but for the one at this place.
fn with(bytes: &[u8], place: usize, octet: u8) -> Octets {
    let mut octets = Octets::new();
    for i in 0..bytes.len() {
        if octets.len() < MAX_OCTETS {
            octets.push(if i == place { octet } else { bytes[i] });
        }
    }
    octets
}

/// A text so many times, in front of what ends it.
fn times(front: &[u8], count: u32, text: &[u8], end: &[u8]) -> Octets {
    let mut octets = octets_of(front);
    for _ in 0..count {
        append(&mut octets, text);
    }
    append(&mut octets, end);
    octets
}

/// The response to a datagram of a server that has just begun, one second after its clocks did, and
/// the octets of its datagrams, end to end.
fn responded(
    alloc: Global,
    keys: &KeyTable,
    datagram: &[u8],
) -> Result<(Option<Silence>, Octets), Fail> {
    let record = Record::opening(alloc, ORIGIN)?;
    let mut book = Book::begin(alloc, record, Limits::plain(), ORIGIN)?;
    let context = Context {
        salt: Salt([0; 16]),
        origin: ORIGIN,
        moment: SECOND,
    };
    let response = respond(alloc, &mut book, keys, &context, &CLIENT, datagram)?;
    Ok((silence_of(&response), octets_given(keys, &response)))
}

fn silence_of(response: &Response) -> Option<Silence> {
    match response {
        Response::Silent(why) => Some(*why),
        _ => None,
    }
}

fn octets_given(keys: &KeyTable, response: &Response) -> Octets
    requires { IsGivable keys.now response.now }
{
    let mut all = Octets::new();
    match response {
        Response::Silent(_) => {}
        Response::Time(ask, basis) => all = time_reply(basis, ask, keys, SECOND, SECOND),
        Response::Rate(ask) => all = rate_reply(ask),
        Response::Grams(grams) => {
            for i in 0..grams.len() {
                append(&mut all, grams.get(i).as_slice());
            }
        }
        // Its datagrams are made elsewhere.
        Response::Read(..) => {}
    }
    all
}

/// Whether a server without keys gives these octets.
fn answers(alloc: Global, datagram: &[u8], answer: &[u8]) -> Result<bool, Fail> {
    let (silence, given) = responded(alloc, &KeyTable::new(alloc), datagram)?;
    Ok(silence.is_none() && given.as_slice() == answer)
}

/// Whether a server does not hear a datagram, for this reason, and gives nothing.
fn is_unheard(alloc: Global, datagram: &[u8], why: Unheard) -> Result<bool, Fail> {
    let (silence, given) = responded(alloc, &KeyTable::new(alloc), datagram)?;
    Ok(silence == Some(Silence::Unheard(why)) && given.len() == 0)
}

#[test]
fn a_request_gets_the_reply_of_a_server_that_knows_no_time(rt: HostRuntime) -> Result<(), Fail> {
    assert!(rt; answers(rt.alloc(), &REQUEST, &REPLY)?);
    Ok(())
}

#[test]
fn what_is_no_request_is_not_heard(rt: HostRuntime) -> Result<(), Fail> {
    let version_0 = with(&REQUEST, 0, 0x03);
    let version_5 = with(&REQUEST, 0, 0x2b);
    let broadcast = with(&REQUEST, 0, 0x25);
    let ragged = behind(&REQUEST, b"", b"\x00\x00\x00");
    let short_field = behind(&REQUEST, b"\x00\x01\x00\x0c", &[0; 24]);
    let long_field = behind(&REQUEST, b"\x00\x01\x00\x20", &[0; 24]);
    let no_mac = behind(&REQUEST, b"", &[0; 8]);
    let control_0 = with(&READ_STRATUM, 0, 0x06);
    let control_5 = with(&READ_STRATUM, 0, 0x2e);
    let long = with(&READ_STRATUM, 11, 9);
    let error = with(&READ_STRATUM, 1, 0x42);
    let more = with(&READ_STRATUM, 1, 0x22);
    for (datagram, why) in [
        (b"".as_slice(), Unheard::Packet(1)),
        (&REQUEST[..47], Unheard::Packet(1)),
        (version_0.as_slice(), Unheard::Packet(2)),
        (version_5.as_slice(), Unheard::Packet(2)),
        (broadcast.as_slice(), Unheard::Unserved(5)),
        (REPLY.as_slice(), Unheard::Unserved(4)),
        (b"\x27".as_slice(), Unheard::Unserved(7)),
        (b"\xc0".as_slice(), Unheard::Unserved(0)),
        (ragged.as_slice(), Unheard::Trailer(1)),
        (short_field.as_slice(), Unheard::Trailer(2)),
        (long_field.as_slice(), Unheard::Trailer(3)),
        (no_mac.as_slice(), Unheard::Trailer(4)),
        (&READ_STRATUM[..11], Unheard::Frame(1)),
        (control_0.as_slice(), Unheard::Frame(2)),
        (control_5.as_slice(), Unheard::Frame(2)),
        (long.as_slice(), Unheard::Frame(4)),
        (STRATUM.as_slice(), Unheard::NotRequest),
        (error.as_slice(), Unheard::NotRequest),
        (more.as_slice(), Unheard::NotRequest),
    ] {
        assert!(rt; is_unheard(rt.alloc(), datagram, why)?, "{datagram:?}");
    }
    Ok(())
}

#[test]
fn the_mac_of_a_request_decides_what_ends_the_reply(rt: HostRuntime) -> Result<(), Fail> {
    let alloc = rt.alloc();
    let keys = read_keys(alloc, b"7 MD5 secret").ok().ok_or("the key")?;
    let one_bit = with(&MAC, 19, MAC[19] ^ 1);
    let unknown_key = with(&MAC, 3, 8);
    for (field, mac, end) in [
        (b"".as_slice(), b"".as_slice(), b"".as_slice()),
        (b"".as_slice(), MAC.as_slice(), REPLY_MAC.as_slice()),
        (
            FIELD.as_slice(),
            MAC_WITH_FIELD.as_slice(),
            REPLY_MAC.as_slice(),
        ),
        // The MAC of the header alone.
        (FIELD.as_slice(), MAC.as_slice(), NAK.as_slice()),
        (b"".as_slice(), one_bit.as_slice(), NAK.as_slice()),
        (b"".as_slice(), unknown_key.as_slice(), NAK.as_slice()),
        // A key id alone.
        (b"".as_slice(), &MAC[..4], NAK.as_slice()),
        (b"".as_slice(), NAK.as_slice(), NAK.as_slice()),
    ] {
        let datagram = behind(&REQUEST, field, mac);
        let (_, given) = responded(alloc, &keys, datagram.as_slice())?;
        let wanted = behind(&REPLY, b"", end);
        assert!(rt; given.as_slice() == wanted.as_slice(), "{mac:?}");
    }
    Ok(())
}

#[test]
fn a_control_request_gets_its_answer(rt: HostRuntime) -> Result<(), Fail> {
    let association_9 = with(&READ_STRATUM, 7, 9);
    for (request, answer) in [
        (READ_STRATUM.as_slice(), STRATUM.as_slice()),
        (READ_STATUS.as_slice(), STATUS.as_slice()),
        (
            b"\x16\x02\x00\x01\x00\x00\x00\x00\x00\x00\x00\x04nope".as_slice(),
            b"\x16\xc2\x00\x01\x05\x00\x00\x00\x00\x00\x00\x00".as_slice(),
        ),
        (
            association_9.as_slice(),
            b"\x16\xc2\x00\x01\x04\x00\x00\x09\x00\x00\x00\x00".as_slice(),
        ),
        (
            b"\x16\x03\x00\x01\x00\x00\x00\x00\x00\x00\x00\x00".as_slice(),
            b"\x16\xc3\x00\x01\x03\x00\x00\x00\x00\x00\x00\x00".as_slice(),
        ),
        // The digest of 16 zero octets, the address and the time, by Python's hashlib.
        (
            b"\x16\x0c\x00\x01\x00\x00\x00\x00\x00\x00\x00\x00".as_slice(),
            b"\x16\x8c\x00\x01\xc0\x11\x00\x00\x00\x00\x00\x20\
                nonce=83aa7e8100000000694741e8\r\n"
                .as_slice(),
        ),
    ] {
        assert!(rt; answers(rt.alloc(), request, answer)?, "{request:?}");
    }
    Ok(())
}

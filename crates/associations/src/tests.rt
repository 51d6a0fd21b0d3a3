use crate::association::Association;
use crate::due_times::NextRequest;
use crate::judging::ReplyFault;
use crate::peers::{Peers, TakenReply};
use access_rules::ServerLine;
use clock_filter::Sample;
use discipline::SoftClock;
use edge_traits::Octets;
use fixed_time::{Ntp64, Span};
use mac_keys::{Algorithm, Key, KeyTable, Secret};
use net_addr::{Addr, Ip};
use std::alloc::{AllocError, Global};
use std::test::Fail;

mod settling;

/// A second, in 32.32.
const SECOND: u64 = 1 << 32;

/// The server of the tests.
const SERVER: Addr = Addr {
    ip: Ip::V4([10, 0, 0, 1]),
    port: 123,
};

/// A clock that began at the origin of Unix time.
const CLOCK: SoftClock = SoftClock {
    base: 0,
    ntp: Ntp64(0x83aa_7e80_0000_0000),
    freq: 0,
    slew: 0,
};

/// The header of a request at one second past that origin.
const REQUEST: &[u8; 48] = b"\x23\x00\x06\xec\x00\x00\x00\x00\x00\x00\x00\x00\x00\x00\x00\x00\
    \x00\x00\x00\x00\x00\x00\x00\x00\x00\x00\x00\x00\x00\x00\x00\x00\
    \x00\x00\x00\x00\x00\x00\x00\x00\
    \x83\xaa\x7e\x81\x00\x00\x00\x00";

/// A reply to it of a server of stratum 2, which took and answered it at two seconds past.
const REPLY: &[u8; 48] = b"\x24\x02\x06\xec\x00\x00\x00\x00\x00\x00\x00\x00\xc0\x00\x02\x07\
    \x83\xaa\x7e\x00\x00\x00\x00\x00\x83\xaa\x7e\x81\x00\x00\x00\x00\
    \x83\xaa\x7e\x82\x00\x00\x00\x00\x83\xaa\x7e\x82\x00\x00\x00\x00";

// The MD5 digests of "secret" and the request, and of "secret" and the reply, by Python's hashlib.
const REQUEST_DIGEST: &[u8] = b"\xe2\x4a\x82\x72\x89\xc9\x79\x1c\xf2\x72\x93\xa1\xd6\x9b\xff\xd8";

const REPLY_DIGEST: &[u8] = b"\xe2\x19\x27\xdd\x7b\x59\x75\xc8\xdf\x3d\x1a\x44\xd6\xab\x10\x83";

/// A line of the configuration; its poll is held between 4 and 17.
fn line(addr: Addr, key: u16, poll: u8) -> ServerLine {
    ServerLine {
        addr,
        key: u32::from(key),
        poll: poll.clamp(4, 17),
    }
}

/// The associations of `server 10.0.0.1`, with this key.
fn one_server(alloc: Global, key: u16) -> Result<Peers, AllocError> {
    Peers::of(alloc, &[line(SERVER, key, 6)])
}

/// The request to the first server at a moment.
fn ask(peers: &mut Peers, clock: &SoftClock, keys: &KeyTable, moment: u64) -> Option<Octets> {
    if peers.len() == 0 {
        return None;
    }
    Some(peers.request_for(1, clock, keys, moment))
}

/// What a datagram changes of the first association, but for its samples: the time awaited, the
/// reach register, events and code, the stratum, the last transmit and destination timestamps.
fn shown(peers: &Peers) -> Option<(Option<u64>, u8, (u8, u8), u8, u64, u64)> {
    let p = peers.list.first()?;
    Some((
        p.pending.map(|transmit| transmit.0),
        p.reach,
        (p.events, p.code),
        p.stratum,
        p.transmit.0,
        p.received.0,
    ))
}

/// The samples of the first association, and the dispersion of its estimate.
fn measured(peers: &Peers) -> Option<([Option<Sample>; 8], Option<u64>)> {
    let p: &Association = peers.list.first()?;
    Some((p.filter.stages(), p.estimate.map(|e| e.disp)))
}

#[test]
fn the_first_reply_gives_a_sample_and_an_estimate(rt: HostRuntime) -> Result<(), Fail> {
    let keys = KeyTable::new(rt.alloc());
    let mut peers = one_server(rt.alloc(), 0)?;
    assert_eq!(rt; peers.len(), 1);
    assert_eq!(rt; shown(&peers), Some((None, 0, (0, 0), 16, 0, 0)));
    assert_eq!(rt; measured(&peers), Some(([None; 8], None)));

    let request = ask(&mut peers, &CLOCK, &keys, SECOND);
    assert!(rt; request.map_or(false, |octets| octets.as_slice() == REQUEST.as_slice()));
    let sent = 0x83aa_7e81_0000_0000;
    assert_eq!(rt; shown(&peers), Some((Some(sent), 0, (0, 0), 16, 0, 0)));

    let came = SECOND + SECOND / 2;
    let taken = peers.take_reply(&SERVER, REPLY, &keys, &CLOCK, came);
    assert_eq!(rt;
        taken,
        Ok(TakenReply {
            peer: 1,
            fresh: true
        })
    );
    let (told, received) = (0x83aa_7e82_0000_0000, 0x83aa_7e81_8000_0000);
    assert_eq!(rt; shown(&peers), Some((None, 1, (1, 4), 2, told, received)));
    let mut stages = [None; 8];
    stages[0] = Some(Sample {
        offset: Span(3_221_225_472),
        delay: 2_147_483_648,
        disp: 40_405,
        at: came,
    });
    assert_eq!(rt; measured(&peers), Some((stages, Some(34_091_323_114))));

    // The same datagram once more.
    let again = peers.take_reply(&SERVER, REPLY, &keys, &CLOCK, came);
    assert_eq!(rt; again, Err(ReplyFault::Duplicate));
    assert_eq!(rt; shown(&peers), Some((None, 1, (1, 4), 2, told, received)));
    assert_eq!(rt; measured(&peers), Some((stages, Some(34_091_323_114))));
    Ok(())
}

#[test]
fn each_fault_comes_alone_and_leaves_what_it_may(rt: HostRuntime) -> Result<(), Fail> {
    let keys = KeyTable::new(rt.alloc());
    let port_124 = Addr {
        port: 124,
        ..SERVER
    };
    let host_2 = Addr {
        ip: Ip::V4([10, 0, 0, 2]),
        port: 123,
    };
    // What is other than the reply: its sender, and one octet at a place.
    let cases = [
        (
            "another host",
            host_2,
            12,
            0xc0,
            ReplyFault::NoSuchPeer,
            true,
        ),
        (
            "another port",
            port_124,
            12,
            0xc0,
            ReplyFault::NoSuchPeer,
            true,
        ),
        (
            "a client's mode",
            SERVER,
            0,
            0x23,
            ReplyFault::Malformed,
            true,
        ),
        ("version 0", SERVER, 0, 0x04, ReplyFault::Malformed, true),
        ("another origin", SERVER, 31, 0x01, ReplyFault::Bogus, true),
        (
            "stratum 0",
            SERVER,
            1,
            0x00,
            ReplyFault::Kiss([192, 0, 2, 7]),
            false,
        ),
        ("leap 3", SERVER, 0, 0xe4, ReplyFault::Unsynchronised, false),
        (
            "stratum 16",
            SERVER,
            1,
            0x10,
            ReplyFault::Unsynchronised,
            false,
        ),
        (
            "root delay 32 s",
            SERVER,
            5,
            0x20,
            ReplyFault::TooFar,
            false,
        ),
        (
            "root dispersion 16 s",
            SERVER,
            9,
            0x10,
            ReplyFault::TooFar,
            false,
        ),
    ];
    for (what, from, place, octet, fault, waits) in cases {
        let mut peers = one_server(rt.alloc(), 0)?;
        let _ = ask(&mut peers, &CLOCK, &keys, SECOND);
        let mut datagram = *REPLY;
        assert!(rt; place < datagram.len());
        datagram[place] = octet;
        let answer = peers.take_reply(&from, &datagram, &keys, &CLOCK, 2 * SECOND);
        assert_eq!(rt; answer, Err(fault), "{what}");
        let awaited = if waits {
            Some(0x83aa_7e81_0000_0000)
        } else {
            None
        };
        assert_eq!(rt;
            shown(&peers),
            Some((awaited, 0, (0, 0), 16, 0, 0)),
            "{what}"
        );
        assert_eq!(rt; measured(&peers), Some(([None; 8], None)), "{what}");
    }
    Ok(())
}

#[test]
fn what_is_within_its_bound_is_taken(rt: HostRuntime) -> Result<(), Fail> {
    let keys = KeyTable::new(rt.alloc());
    let cases = [
        ("leap 2", 0, 0xa4),
        ("stratum 15", 1, 0x0f),
        ("root delay 31 s", 5, 0x1f),
        ("root dispersion 15 s", 9, 0x0f),
        ("version 1", 0, 0x0c),
    ];
    for (what, place, octet) in cases {
        let mut peers = one_server(rt.alloc(), 0)?;
        let _ = ask(&mut peers, &CLOCK, &keys, SECOND);
        let mut datagram = *REPLY;
        assert!(rt; place < datagram.len());
        datagram[place] = octet;
        let answer = peers.take_reply(&SERVER, &datagram, &keys, &CLOCK, 2 * SECOND);
        assert_eq!(rt;
            answer,
            Ok(TakenReply {
                peer: 1,
                fresh: true
            }),
            "{what}"
        );
    }
    Ok(())
}

#[test]
fn a_ragged_datagram_leaves_the_request_waiting(rt: HostRuntime) -> Result<(), Fail> {
    let keys = KeyTable::new(rt.alloc());
    let mut peers = one_server(rt.alloc(), 0)?;
    let _ = ask(&mut peers, &CLOCK, &keys, SECOND);
    let mut ragged = [0; 50];
    ragged[..48].copy_from_slice(REPLY);
    for datagram in [b"".as_slice(), &ragged[..47], ragged.as_slice()] {
        let answer = peers.take_reply(&SERVER, datagram, &keys, &CLOCK, 2 * SECOND);
        assert_eq!(rt; answer, Err(ReplyFault::Malformed));
    }
    let taken = peers.take_reply(&SERVER, REPLY, &keys, &CLOCK, 2 * SECOND);
    assert_eq!(rt;
        taken,
        Ok(TakenReply {
            peer: 1,
            fresh: true
        })
    );
    Ok(())
}

#[test]
fn a_line_with_a_key_asks_and_takes_with_its_mac(rt: HostRuntime) -> Result<(), Fail> {
    let mut keys = KeyTable::new(rt.alloc());
    keys.add(Key {
        id: 258,
        algorithm: Algorithm::Md5,
        secret: Secret::of(b"secret"),
    })?;
    let mut peers = one_server(rt.alloc(), 258)?;
    let mut request = [0; 68];
    request[..48].copy_from_slice(REQUEST);
    request[50..52].copy_from_slice(&[1, 2]);
    request[52..].copy_from_slice(REQUEST_DIGEST);
    let asked = ask(&mut peers, &CLOCK, &keys, SECOND);
    assert!(rt; asked.map_or(false, |octets| octets.as_slice() == request.as_slice()));

    let mut reply = [0; 68];
    reply[..48].copy_from_slice(REPLY);
    reply[50..52].copy_from_slice(&[1, 2]);
    reply[52..].copy_from_slice(REPLY_DIGEST);
    let mut forged = reply;
    forged[67] ^= 1;
    for datagram in [REPLY.as_slice(), &forged[..52], forged.as_slice()] {
        let _ = ask(&mut peers, &CLOCK, &keys, SECOND);
        let answer = peers.take_reply(&SERVER, datagram, &keys, &CLOCK, 2 * SECOND);
        assert_eq!(rt; answer, Err(ReplyFault::BadAuth));
        let late = peers.take_reply(&SERVER, &reply, &keys, &CLOCK, 2 * SECOND);
        assert_eq!(rt; late, Err(ReplyFault::Bogus), "no request waits any more");
    }
    let _ = ask(&mut peers, &CLOCK, &keys, SECOND);
    let answer = peers.take_reply(&SERVER, &reply, &keys, &CLOCK, 2 * SECOND);
    assert_eq!(rt;
        answer,
        Ok(TakenReply {
            peer: 1,
            fresh: true
        })
    );
    assert_eq!(rt; peers.list.first().map(|p| p.auth_ok), Some(true));
    Ok(())
}

#[test]
fn the_reach_register_runs_empty_and_fills_again(rt: HostRuntime) -> Result<(), Fail> {
    let keys = KeyTable::new(rt.alloc());
    let mut peers = one_server(rt.alloc(), 0)?;
    let _ = ask(&mut peers, &CLOCK, &keys, SECOND);
    let taken = peers.take_reply(&SERVER, REPLY, &keys, &CLOCK, 2 * SECOND);
    assert!(rt; taken.is_ok());
    // The reach register, events and code after each request.
    let cases = [
        (0b10, 1, 4),
        (0b100, 1, 4),
        (0b1000, 1, 4),
        (0b1_0000, 1, 4),
        (0b10_0000, 1, 4),
        (0b100_0000, 1, 4),
        (0b1000_0000, 1, 4),
        (0, 2, 3),
        (0, 2, 3),
    ];
    for (reach, events, code) in cases {
        let _ = ask(&mut peers, &CLOCK, &keys, SECOND);
        let after = peers.list.first().map(|p| (p.reach, p.events, p.code));
        assert_eq!(rt; after, Some((reach, events, code)));
    }
    let mut reply = *REPLY;
    reply[47] = 1;
    let taken = peers.take_reply(&SERVER, &reply, &keys, &CLOCK, 2 * SECOND);
    assert!(rt; taken.is_ok());
    let after = peers.list.first().map(|p| (p.reach, p.events, p.code));
    assert_eq!(rt; after, Some((1, 3, 4)));
    let _ = ask(&mut peers, &CLOCK, &keys, SECOND);
    reply[47] = 2;
    let taken = peers.take_reply(&SERVER, &reply, &keys, &CLOCK, 2 * SECOND);
    assert!(rt; taken.is_ok());
    let after = peers.list.first().map(|p| (p.reach, p.events, p.code));
    assert_eq!(rt; after, Some((0b11, 3, 4)));
    Ok(())
}

#[test]
fn a_server_in_the_next_era_is_one_second_ahead(rt: HostRuntime) -> Result<(), Fail> {
    let keys = KeyTable::new(rt.alloc());
    let clock = SoftClock {
        ntp: Ntp64(0xffff_ffff_8000_0000),
        ..CLOCK
    };
    let mut peers = one_server(rt.alloc(), 0)?;
    let _ = ask(&mut peers, &clock, &keys, 0);
    let mut reply = *REPLY;
    reply[24..32].copy_from_slice(b"\xff\xff\xff\xff\x80\x00\x00\x00");
    reply[32..40].copy_from_slice(b"\x00\x00\x00\x01\x00\x00\x00\x00");
    reply[40..].copy_from_slice(b"\x00\x00\x00\x01\x00\x00\x00\x00");
    let taken = peers.take_reply(&SERVER, &reply, &keys, &clock, SECOND);
    assert!(rt; taken.is_ok());
    let p = peers
        .list
        .first()
        .map(|p| (p.received, p.estimate.map(|e| (e.offset, e.delay))));
    let expected = (Ntp64(0x8000_0000), Some((Span(1 << 32), 1 << 32)));
    assert_eq!(rt; p, Some(expected));
    Ok(())
}

// RATE, whose code stands where the reference identifier does, puts the next request off.
#[test]
fn the_kiss_code_rate_puts_the_next_request_off(rt: HostRuntime) -> Result<(), Fail> {
    let keys = KeyTable::new(rt.alloc());
    let mut peers = one_server(rt.alloc(), 0)?;
    let _ = ask(&mut peers, &CLOCK, &keys, SECOND);
    let mut kiss = *REPLY;
    kiss[1] = 0;
    kiss[12..16].copy_from_slice(b"RATE");
    let answer = peers.take_reply(&SERVER, &kiss, &keys, &CLOCK, 2 * SECOND);
    assert_eq!(rt; answer, Err(ReplyFault::Kiss(*b"RATE")));
    assert!(rt; peers.len() == 1);
    assert_eq!(rt; peers.next_request(1, SECOND), Some(65 * SECOND));
    let denied = ReplyFault::Kiss(*b"DENY");
    let cases = [
        (
            ReplyFault::Kiss(*b"RATE"),
            NextRequest::Due(Some(258 * SECOND)),
        ),
        (denied, NextRequest::AsBefore),
        (ReplyFault::TooFar, NextRequest::AsBefore),
    ];
    for (fault, next) in cases {
        assert_eq!(rt; peers.next_after_fault(1, fault, 2 * SECOND), next);
    }
    assert_eq!(rt; peers.next_request(1, u64::MAX - 63 * SECOND), None);
    Ok(())
}

#[test]
fn the_first_line_of_an_address_counts(rt: HostRuntime) -> Result<(), Fail> {
    let other = Addr {
        ip: Ip::V4([10, 0, 0, 2]),
        port: 123,
    };
    let lines = [line(SERVER, 0, 6), line(other, 0, 7), line(other, 0, 8)];
    let peers = Peers::of(rt.alloc(), &lines)?;
    assert_eq!(rt; peers.line_of(&SERVER), Some(1));
    assert_eq!(rt; peers.line_of(&other), Some(2));
    assert_eq!(rt; peers.line_of(&Addr { port: 124, ..other }), None);
    assert_eq!(rt; peers.len(), 3);
    for (peer, poll) in [(1, 6), (2, 7), (3, 8)] {
        assert_eq!(rt; (peers.poll(peer), peers.reach(peer)), (poll, 0));
        assert_eq!(rt; peers.addr_of(peer), if peer == 1 { SERVER } else { other });
    }
    Ok(())
}

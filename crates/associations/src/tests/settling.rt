use super::{CLOCK, REPLY, SECOND, SERVER, ask, line, one_server};
use crate::judging::ReplyFault;
use crate::peers::{MAX_PEERS, Peers, TakenReply};
use discipline::{Loop, State};
use fixed_time::{Ntp64, Short, Span, add_raw, add_span};
use mac_keys::KeyTable;
use net_addr::{Addr, Ip};
use ntp_packet::Header;
use std::alloc::{AllocError, Global};
use std::test::Fail;
use sys_vars::{Record, System, peer_status, system_status};

/// A server of the tests, and how far its clock is ahead.
#[derive(Clone, Copy)]
struct Server {
    addr: Addr,
    leap: u8,
    stratum: u8,
    root_delay: u32,
    root_disp: u32,
    offset: i64,
}

/// A server of stratum 2 at 10.0.0.`host`.
fn make_server(host: u8, offset: i64) -> Server {
    Server {
        addr: Addr {
            ip: Ip::V4([10, 0, 0, host]),
            port: 123,
        },
        leap: 0,
        stratum: 2,
        root_delay: 0,
        root_disp: 0,
        offset,
    }
}

/// The associations of these servers.
fn peers_of(alloc: Global, servers: &[Server]) -> Result<Peers, AllocError> {
    let mut lines = Vec::new(alloc);
    for server in servers {
        lines.push(line(server.addr, 0, 6))?;
    }
    let few = lines.len().min(MAX_PEERS);
    Peers::of(alloc, &lines[..few])
}

/// A request to the server at a moment, and its reply after a 64th of a second, half of it on each way.
fn exchange(
    peers: &mut Peers,
    server: &Server,
    keys: &KeyTable,
    moment: u64,
) -> Option<Result<TakenReply, ReplyFault>> {
    let peer = peers.line_of(&server.addr)?;
    let _ = peers.request_for(peer, &CLOCK, keys, moment);
    let origin = CLOCK.at(moment);
    let answered = add_span(add_raw(origin, SECOND / 128), Span(server.offset));
    let reply = ntp_packet::write(&Header {
        leap: server.leap & 3,
        version: 4,
        mode: 4,
        stratum: server.stratum,
        poll: 6,
        precision: -20,
        root_delay: Short(server.root_delay),
        root_disp: Short(server.root_disp),
        refid: [0; 4],
        reference: Ntp64(0),
        origin,
        receive: answered,
        transmit: answered,
    });
    let came = moment.wrapping_add(SECOND / 64);
    Some(peers.take_reply(&server.addr, &reply, keys, &CLOCK, came))
}

/// Four rounds of exchanges, 64 seconds apart, with the last server first and a second between two;
/// the moment of the last reply. Each estimate has four samples then, and a dispersion under a second.
fn measure(peers: &mut Peers, servers: &[Server], keys: &KeyTable) -> u64 {
    let mut moment = SECOND;
    for round in 0..4u64 {
        moment = SECOND.wrapping_add(round.wrapping_mul(64 * SECOND));
        for server in servers.iter().rev() {
            let _ = exchange(peers, server, keys, moment);
            moment = moment.wrapping_add(SECOND);
        }
    }
    moment.wrapping_sub(SECOND - SECOND / 64)
}

/// A settle after the last reply of the server.
fn settle(
    peers: &mut Peers,
    server: &Server,
    engine: &mut Loop,
    old: &System,
    moment: u64,
) -> Option<System> {
    let peer = peers.line_of(&server.addr)?;
    Some(peers.settle(peer, engine, old, moment))
}

/// The system of a server that begins with a known frequency.
fn opening(alloc: Global) -> Result<System, AllocError> {
    let mut system = Record::opening(alloc, CLOCK.ntp)?.system;
    system.state = State::Fset;
    system.code = 2;
    Ok(system)
}

/// The peer status words.
fn statuses(peers: &Peers) -> Result<[u16; 4], AllocError> {
    let views = peers.views()?;
    let mut words = [0; 4];
    for i in 0..views.len().min(4) {
        words[i] = peer_status(views.get(i));
    }
    Ok(words)
}

#[test]
fn the_first_reply_of_a_server_makes_no_majority_yet(rt: HostRuntime) -> Result<(), Fail> {
    let keys = KeyTable::new(rt.alloc());
    let mut peers = one_server(rt.alloc(), 0)?;
    let mut engine = Loop::of(CLOCK, None);
    let old = Record::opening(rt.alloc(), CLOCK.ntp)?.system;
    assert_eq!(rt; statuses(&peers)?, [0x8000, 0, 0, 0]);

    let _ = ask(&mut peers, &CLOCK, &keys, SECOND);
    let came = SECOND + SECOND / 2;
    assert!(rt;
        peers
            .take_reply(&SERVER, REPLY, &keys, &CLOCK, came)
            .is_ok()
    );
    let known = Server {
        addr: SERVER,
        ..make_server(1, 0)
    };
    let system = settle(&mut peers, &known, &mut engine, &old, came);
    assert_eq!(rt; statuses(&peers)?, [0x9014, 0, 0, 0]);
    assert_eq!(rt; system.map(|s| system_status(&s)), Some(0xc028));
    assert_eq!(rt; system.map(|s| (s.peer, s.state)), Some((0, State::Nset)));
    assert_eq!(rt; engine.state(), State::Nset);
    Ok(())
}

// The values were computed by an independent program; the clock ran 7 units of 2^-32 fast for 195
// seconds when it was set.
#[test]
fn a_falseticker_is_left_out(rt: HostRuntime) -> Result<(), Fail> {
    let keys = KeyTable::new(rt.alloc());
    let servers = [
        Server {
            leap: 1,
            root_delay: 0x100,
            ..make_server(1, SECOND as i64 / 100)
        },
        Server {
            root_disp: 0x100,
            ..make_server(2, SECOND as i64 * 12 / 1000)
        },
        make_server(3, SECOND as i64 * 5),
    ];
    let mut peers = peers_of(rt.alloc(), &servers)?;
    let now = measure(&mut peers, &servers, &keys);
    assert_eq!(rt; now, 195 * SECOND + SECOND / 64);
    let mut engine = Loop::of(CLOCK, Some(7));
    let old = opening(rt.alloc())?;

    let system = settle(&mut peers, &servers[0], &mut engine, &old, now);
    let expected = System {
        leap: 1,
        stratum: 3,
        precision: -20,
        root_delay: 83_886_080,
        root_disp: 4_082_689_304,
        refid: [10, 0, 0, 1],
        reference: Ntp64(0x83aa_7f43_0400_0555),
        at: now,
        peer: 1,
        poll: 6,
        offset: Span(47_240_161),
        freq: 7,
        jitter: 6_074_001,
        state: State::Sync,
        source: 6,
        events: 2,
        code: 5,
    };
    assert_eq!(rt; system, Some(expected));
    assert_eq!(rt; system_status(&expected), 0x4625);
    assert_eq!(rt; statuses(&peers)?, [0x9614, 0x9414, 0x9114, 0]);
    assert_eq!(rt; engine.clock().base, now);

    // A reply of another survivor leaves loop and system as they are.
    let again = settle(
        &mut peers,
        &servers[1],
        &mut engine,
        &expected,
        now + SECOND,
    );
    assert_eq!(rt; again, Some(expected));
    assert_eq!(rt; engine.clock().base, now);
    Ok(())
}

#[test]
fn selection_codes_tell_survivors_from_outliers(rt: HostRuntime) -> Result<(), Fail> {
    let keys = KeyTable::new(rt.alloc());
    let servers = [
        make_server(1, 0),
        Server {
            root_disp: 0x100,
            ..make_server(2, SECOND as i64 / 1000)
        },
        Server {
            root_disp: 0x200,
            ..make_server(3, SECOND as i64 / 500)
        },
        make_server(4, SECOND as i64 / 2),
    ];
    let mut peers = peers_of(rt.alloc(), &servers)?;
    let now = measure(&mut peers, &servers, &keys);
    let mut engine = Loop::of(CLOCK, Some(0));
    let old = opening(rt.alloc())?;
    let system = settle(&mut peers, &servers[0], &mut engine, &old, now);
    assert_eq!(rt; statuses(&peers)?, [0x9614, 0x9414, 0x9414, 0x9314]);
    let combined = system.map(|s| (s.offset, s.jitter));
    assert_eq!(rt; combined, Some((Span(4_283_159), 5_544_778)));
    Ok(())
}

#[test]
fn two_servers_apart_are_no_majority(rt: HostRuntime) -> Result<(), Fail> {
    let keys = KeyTable::new(rt.alloc());
    let servers = [make_server(1, 0), make_server(2, SECOND as i64 * 5)];
    let mut peers = peers_of(rt.alloc(), &servers)?;
    let now = measure(&mut peers, &servers, &keys);
    let mut engine = Loop::of(CLOCK, Some(0));
    let mut old = opening(rt.alloc())?;
    old.peer = 2;
    old.stratum = 3;
    let system = settle(&mut peers, &servers[0], &mut engine, &old, now);
    let mut expected = old;
    expected.peer = 0;
    expected.events = 2;
    expected.code = 8;
    assert_eq!(rt; system, Some(expected));
    assert_eq!(rt; statuses(&peers)?, [0x9114, 0x9114, 0, 0]);
    assert_eq!(rt; engine.state(), State::Fset);
    Ok(())
}

// An offset, the server's leap and stratum, and the system's leap, stratum, peer, source, events and code.
#[test]
fn each_answer_of_the_discipline_sets_the_system(rt: HostRuntime) -> Result<(), Fail> {
    let keys = KeyTable::new(rt.alloc());
    let tenth = SECOND as i64 / 10;
    let cases = [
        ("adjusted", Some(0), tenth, 0, 2, (0, 3, 1, 6, 2, 5)),
        (
            "below stratum 15",
            Some(0),
            tenth,
            1,
            15,
            (3, 16, 1, 6, 2, 5),
        ),
        (
            "below stratum 14",
            Some(0),
            tenth,
            1,
            14,
            (1, 15, 1, 6, 2, 5),
        ),
        ("stepped", Some(0), tenth * 5, 0, 2, (3, 16, 0, 0, 2, 5)),
        ("panic", Some(0), tenth * 10_010, 0, 2, (3, 16, 0, 0, 2, 7)),
        ("no frequency", None, tenth, 0, 2, (0, 3, 1, 6, 2, 4)),
        (
            "stepped without",
            None,
            tenth * 10_010,
            0,
            2,
            (3, 16, 0, 0, 2, 4),
        ),
    ];
    for (what, freq, offset, leap, stratum, expected) in cases {
        let servers = [Server {
            leap,
            stratum,
            ..make_server(1, offset)
        }];
        let mut peers = peers_of(rt.alloc(), &servers)?;
        let now = measure(&mut peers, &servers, &keys);
        let mut engine = Loop::of(CLOCK, freq);
        let mut old = opening(rt.alloc())?;
        old.state = engine.state();
        let system = settle(&mut peers, &servers[0], &mut engine, &old, now);
        let shown = system.map(|s| (s.leap, s.stratum, s.peer, s.source, s.events, s.code));
        assert_eq!(rt; shown, Some(expected), "{what}");
        assert_eq!(rt; statuses(&peers)?, [0x9614, 0, 0, 0], "{what}");
    }
    Ok(())
}

#[test]
fn a_spike_is_ignored_but_for_the_state(rt: HostRuntime) -> Result<(), Fail> {
    let keys = KeyTable::new(rt.alloc());
    let tenth = make_server(1, SECOND as i64 / 10);
    let mut peers = peers_of(rt.alloc(), &[tenth])?;
    let now = measure(&mut peers, &[tenth], &keys);
    let mut engine = Loop::of(CLOCK, Some(0));
    let old = opening(rt.alloc())?;
    let before = settle(&mut peers, &tenth, &mut engine, &old, now);
    assert!(rt; before.is_some());
    let before = before.unwrap_or(old);

    let half = make_server(1, SECOND as i64 / 2);
    let _ = exchange(&mut peers, &half, &keys, 257 * SECOND);
    let later = 257 * SECOND + SECOND / 64;
    let after = settle(&mut peers, &half, &mut engine, &before, later);
    let mut expected = before;
    expected.state = State::Spik;
    expected.events = 3;
    expected.code = 3;
    assert_eq!(rt; after, Some(expected));
    Ok(())
}

#[test]
fn a_step_forgets_what_was_measured(rt: HostRuntime) -> Result<(), Fail> {
    let keys = KeyTable::new(rt.alloc());
    let half = make_server(1, SECOND as i64 / 2);
    let mut peers = peers_of(rt.alloc(), &[half])?;
    let now = measure(&mut peers, &[half], &keys);
    let mut engine = Loop::of(CLOCK, Some(0));
    let old = opening(rt.alloc())?;
    let system = settle(&mut peers, &half, &mut engine, &old, now);
    assert_eq!(rt; system.map(|s| s.refid), Some(*b"STEP"));
    let root = system.map(|s| (s.root_delay, s.root_disp));
    assert_eq!(rt; root, Some((0, 16 * SECOND)));
    assert_eq!(rt; system.map(|s| (s.reference, s.at)), Some((Ntp64(0), now)));

    let views = peers.views()?;
    assert_eq!(rt; views.len(), 1);
    let view = views.get(0);
    assert_eq!(rt;
        (view.offset, view.delay, view.disp, view.jitter),
        (Span(0), 0, 16 * SECOND, 0)
    );
    assert_eq!(rt; view.stages, [None; 8]);
    assert_eq!(rt; (view.assoc, view.addr, view.reach), (1, half.addr, 0b1111));
    Ok(())
}

#[test]
fn an_ipv6_server_is_named_by_a_digest(rt: HostRuntime) -> Result<(), Fail> {
    let keys = KeyTable::new(rt.alloc());
    let mut octets = [0; 16];
    octets[..4].copy_from_slice(b"\x20\x01\x0d\xb8");
    octets[15] = 1;
    let v6 = Server {
        addr: Addr {
            ip: Ip::V6(octets),
            port: 123,
        },
        ..make_server(1, 0)
    };
    let mut peers = peers_of(rt.alloc(), &[v6])?;
    let now = measure(&mut peers, &[v6], &keys);
    let mut engine = Loop::of(CLOCK, Some(0));
    let old = opening(rt.alloc())?;
    let system = settle(&mut peers, &v6, &mut engine, &old, now);
    // By Python's hashlib, of 2001:db8::1.
    assert_eq!(rt; system.map(|s| s.refid), Some([0x39, 0xab, 0x9b, 0x37]));
    Ok(())
}

use edge_traits::Octets;
use fixed_time::Ntp64;
use mac_keys::{Auth, KeyTable};
use net_addr::{Addr, Ip};
use server_core::{Ask, Basis, time_reply};
use std::alloc::{AllocError, Global};
use std::test::Fail;
use sys_vars::Record;

/// The origin of Unix time.
const UNIX: Ntp64 = Ntp64(0x83aa_7e80_0000_0000);

const ASK: Ask = Ask {
    from: Addr {
        ip: Ip::V4([192, 0, 2, 1]),
        port: 123,
    },
    version: 4,
    poll: 6,
    transmit: UNIX,
    auth: Auth::Absent,
};

/// What a server's first reply is made of, whose clock begins at the origin of Unix time.
fn opening(alloc: Global) -> Result<Basis, AllocError> {
    let record = Record::opening(alloc, UNIX)?;
    Ok(Basis {
        system: record.system,
        clock: record.clock,
    })
}

#[test]
fn a_server_that_knows_no_time_says_so(rt: HostRuntime) -> Result<(), Fail> {
    let keys = KeyTable::new(rt.alloc());
    let reply = time_reply(&opening(rt.alloc())?, &ASK, &keys, 1 << 32, 1 << 32);
    let octets = *b"\xe4\x00\x06\xec\x00\x00\x00\x00\x00\x10\x00\x00INIT\
        \x00\x00\x00\x00\x00\x00\x00\x00\x83\xaa\x7e\x80\x00\x00\x00\x00\
        \x83\xaa\x7e\x81\x00\x00\x00\x00\x83\xaa\x7e\x81\x00\x00\x00\x00";
    assert!(rt; reply.as_slice() == octets.as_slice());
    Ok(())
}

/// The root dispersion of the reply to a request that came at this second, in 16.16 seconds, and
/// its receive and transmit timestamps.
fn shown(reply: &Octets) -> (Option<u32>, Option<u64>, Option<u64>) {
    match ntp_packet::read(reply.as_slice()) {
        Ok(header) => (
            Some(header.root_disp.0),
            Some(header.receive.0),
            Some(header.transmit.0),
        ),
        Err(_) => (None, None, None),
    }
}

#[test]
fn dispersion_grows_by_15_seconds_in_a_million(rt: HostRuntime) -> Result<(), Fail> {
    let keys = KeyTable::new(rt.alloc());
    // 0.015 seconds in 1000: 983.04 of 2^-16 seconds.
    let cases = [
        ("nothing has passed", 5, 5, 5 << 32, 5 << 16),
        ("1000 seconds have passed", 5, 1005, 0, 984),
        ("it has the maximum", 5, 6, 16 << 32, 16 << 16),
    ];
    for (message, at, came, root_disp, dispersion) in cases {
        let mut basis = opening(rt.alloc())?;
        basis.system.at = at << 32;
        basis.system.root_disp = root_disp;
        let reply = time_reply(&basis, &ASK, &keys, came << 32, came << 32);
        assert_eq!(rt; shown(&reply).0, Some(dispersion), "{message}");
    }
    Ok(())
}

#[test]
fn nothing_is_sent_before_it_came(rt: HostRuntime) -> Result<(), Fail> {
    let keys = KeyTable::new(rt.alloc());
    let reply = time_reply(&opening(rt.alloc())?, &ASK, &keys, 2 << 32, 1 << 32);
    let second = Some(0x83aa_7e82_0000_0000);
    assert_eq!(rt; (shown(&reply).1, shown(&reply).2), (second, second));
    Ok(())
}

ghost use Rattle.std.specs.Prelude.{◌≤◌, IfOk};
ghost use Rattle.associations.specs.declared.asking.TheConstants.{MAX_REQUEST_LEN};

use crate::shared::{ORIGIN, SECOND, common, datagram, opened};
use access_rules::ServerLine;
use associations::Peers;
use discipline::{Loop, SoftClock};
use edge_traits::{Event, Incoming, MemoryClock, MemoryPort};
use net_addr::{Addr, Ip};
use pilot::{FlightEnd, Pilot};
use server_core::Op;
use std::alloc::{AllocError, Global};
use std::test::Fail;
use sys_vars::Record;

/// The server that is asked.
const SERVER: Addr = Addr {
    ip: Ip::V4([10, 0, 0, 9]),
    port: 123,
};

/// The request to it, at one second after the origin.
const REQUEST: [u8; 48] = *b"\x23\x00\x06\xec\x00\x00\x00\x00\x00\x00\x00\x00\x00\x00\x00\x00\
    \x00\x00\x00\x00\x00\x00\x00\x00\x00\x00\x00\x00\x00\x00\x00\x00\
    \x00\x00\x00\x00\x00\x00\x00\x00\
    \x83\xaa\x7e\x81\x00\x00\x00\x00";

/// Its reply, of stratum 2, which took and answered the request at two seconds.
const REPLY: [u8; 48] = *b"\x24\x02\x06\xec\x00\x00\x00\x00\x00\x00\x00\x00\xc0\x00\x02\x07\
    \x83\xaa\x7e\x00\x00\x00\x00\x00\x83\xaa\x7e\x81\x00\x00\x00\x00\
    \x83\xaa\x7e\x82\x00\x00\x00\x00\x83\xaa\x7e\x82\x00\x00\x00\x00";

/// A pilot that asks the server, whose reply comes at three seconds, and then nothing any more.
pub fn pilot(alloc: Global) -> Result<Pilot<MemoryPort, MemoryClock>, AllocError>
    ensures { IfOk result (λ pilot. MAX_REQUEST_LEN ≤ pilot.helm.outside.most) }
{
    let mut incoming = Vec::new(alloc);
    incoming.push(datagram(&SERVER, &REPLY))?;
    incoming.push(Incoming::Quiet)?;
    let port = MemoryPort::of(alloc, incoming, Vec::new(alloc));
    let clock = MemoryClock::of(vec![in alloc; SECOND, 3 * SECOND]?);
    let line = ServerLine {
        addr: SERVER,
        key: 0,
        poll: 6,
    };
    let peers = Peers::of(alloc, &[line])?;
    let clock_of = SoftClock {
        base: 0,
        ntp: ORIGIN,
        freq: 0,
        slew: 0,
    };
    Ok(Pilot::new(alloc, port, clock, peers, Loop::of(clock_of, None)))
}

/// Whether the first thing that happened is the request to the server.
pub fn asked_first(port: &MemoryPort) -> bool {
    match port.events().first() {
        Some(Event::Sent(to, octets)) => *to == SERVER && octets.as_slice() == REQUEST.as_slice(),
        _ => false,
    }
}

#[test]
fn a_good_reply_is_settled_and_published(rt: HostRuntime) -> Result<(), Fail> {
    let alloc = rt.alloc();
    let Some((door, mut seat)) = opened(alloc) else {
        panic!(rt; "no memory")
    };
    let mut pilot = pilot(alloc)?;
    pilot.ready(&Record::opening(alloc, ORIGIN)?)?;
    let keys = common(alloc).keys;
    assert_eq!(rt;
        pilot.fly(&rt, &keys, &door, &mut seat, 1),
        FlightEnd::Closed
    );
    assert!(rt; asked_first(pilot.port()));
    assert_eq!(rt; pilot.left(), 0);
    let book = door.close(seat, Vec::new(alloc));
    assert_eq!(rt; book.journal().len(), 3);
    assert!(rt; matches!(book.journal().get(2), Op::Sweep(_)));
    assert_eq!(rt; book.epoch(), 2);
    // One sample leaves a root distance of over 1.5 seconds.
    assert_eq!(rt; book.latest().system.stratum, 16);
    Ok(())
}

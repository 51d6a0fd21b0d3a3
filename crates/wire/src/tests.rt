use crate::placing::places_of;
use crate::wire::{Wire, WireEvent};
use edge_traits::{Event, Octets};
use net_addr::{Addr, Ip};
use std::alloc::{AllocError, Global};
use std::test::Fail;
use worker::{Act, ActKind, ReadKind};

const SERVER: Addr = Addr {
    ip: Ip::V4([10, 0, 0, 1]),
    port: 123,
};

const CLIENT: Addr = Addr {
    ip: Ip::V4([10, 0, 0, 2]),
    port: 40_000,
};

/// A datagram of one octet, which stands for its kind and number.
fn datagram(octet: u8) -> Octets {
    let mut octets = Octets::new();
    octets.push(octet);
    octets
}

/// An act of the worker about a datagram of the client, of which one datagram was given.
fn act(kind: ActKind) -> Act {
    Act {
        from: CLIENT,
        moment: 1,
        kind,
        given: 1,
        failed: false,
    }
}

/// The client asks for a nonce (1) and takes it (2), asks for a page (3) and takes it (4).
fn ask_twice(alloc: Global) -> Result<Vec<WireEvent>, AllocError> {
    let events = vec![in alloc;
        WireEvent::Client(Event::Sent(SERVER, datagram(1))),
        WireEvent::Worker(Event::Took(CLIENT, datagram(1))),
        WireEvent::Worker(Event::Sent(CLIENT, datagram(2))),
        WireEvent::Client(Event::Took(SERVER, datagram(2))),
        WireEvent::Client(Event::Sent(SERVER, datagram(3))),
        WireEvent::Worker(Event::Took(CLIENT, datagram(3))),
        WireEvent::Worker(Event::Sent(CLIENT, datagram(4))),
        WireEvent::Client(Event::Took(SERVER, datagram(4))),
    ]?;
    Ok(events)
}

#[test]
fn a_datagram_that_comes_again_has_the_place_that_it_had(rt: HostRuntime) -> Result<(), Fail> {
    let mut events = ask_twice(rt.alloc())?;
    events.push(WireEvent::Client(Event::Sent(SERVER, datagram(5))))?;
    events.push(WireEvent::Client(Event::Took(SERVER, datagram(4))))?;
    let acts = [
        act(ActKind::Control {
            mark: 2,
            ignored: false,
        }),
        act(ActKind::Read {
            place: 5,
            reply: ReadKind::Page,
        }),
    ];
    let places = places_of(rt.alloc(), &Wire::of(events), &CLIENT, &acts)?;
    assert_eq!(rt; places.as_slice(), [None, Some(5), Some(5)].as_slice());
    Ok(())
}

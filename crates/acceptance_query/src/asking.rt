use edge_traits::{Event, Incoming, MAX_OCTETS, MemoryPort, Octets, Text};
use net_addr::{Addr, Ip};
use ntpq_client::{AskFault, Client, Request};
use std::alloc::{AllocError, Global};
use std::test::Fail;

const SERVER: Addr = Addr {
    ip: Ip::V4([10, 0, 0, 1]),
    port: 123,
};

#[test]
fn a_request_is_posted_again_after_a_silence(rt: HostRuntime) -> Result<(), Fail> {
    let mut answer = Octets::new();
    answer.put(b"\x16\x82\x00\x02\xc0\x11\x00\x00\x00\x00\x00\x0cstratum=16\r\n");
    let mut refusal = Octets::new();
    refusal.put(b"\x16\xc2\x00\x03\x05\x00\x00\x00\x00\x00\x00\x00");
    let incoming = vec![in rt.alloc();
        Incoming::Quiet,
        Incoming::Datagram(SERVER, answer),
        Incoming::Datagram(SERVER, refusal),
    ]?;
    let mut port = MemoryPort::of(rt.alloc(), incoming, Vec::new(rt.alloc()));
    let mut client = Client::new(rt.alloc(), SERVER);
    let request = Request {
        version: 2,
        opcode: 2,
        assoc: 0,
        body: Text::of(Vec::from_slice(rt.alloc(), b"stratum")?),
    };
    match client.ask(rt.alloc(), &request, &mut port) {
        Ok((status, text)) => {
            assert_eq!(rt; status, 0xc011);
            assert!(rt; text.as_slice() == b"stratum=16\r\n".as_slice(), "the text");
        }
        Err(fault) => assert!(rt; false, "{fault:?}"),
    }
    for fault in [AskFault::Refused(5), AskFault::Closed] {
        match client.ask(rt.alloc(), &request, &mut port) {
            Ok(_) => assert!(rt; false, "an answer in place of {fault:?}"),
            Err(found) => assert_eq!(rt; found, fault),
        }
    }
    assert!(rt;
        matches!(
            port.events(),
            [
                Event::Sent(_, _),
                Event::Silence,
                Event::Sent(_, _),
                Event::Took(_, _),
                Event::Sent(_, _),
                Event::Took(_, _),
                Event::Sent(_, _)
            ]
        )
    );
    Ok(())
}

/// A datagram from this address, cut where an `Octets` ends.
fn datagram(from: Addr, bytes: &[u8]) -> Incoming {
    let mut octets = Octets::new();
    for byte in bytes {
        if octets.len() < MAX_OCTETS {
            octets.push(*byte);
        }
    }
    Incoming::Datagram(from, octets)
}

/// What a client is answered that asks for `stratum` over a port that finds these; the give fails
/// where `failing` has a 0.
fn asked(
    alloc: Global,
    incoming: Vec<Incoming>,
    failing: Vec<u64>,
) -> Result<Result<(u16, Text), AskFault>, AllocError> {
    let mut port = MemoryPort::of(alloc, incoming, failing);
    let mut client = Client::new(alloc, SERVER);
    let request = Request {
        version: 2,
        opcode: 2,
        assoc: 0,
        body: Text::of(Vec::from_slice(alloc, b"stratum")?),
    };
    Ok(client.ask(alloc, &request, &mut port))
}

#[test]
fn each_fault_has_its_cause(rt: HostRuntime) -> Result<(), Fail> {
    let alloc = rt.alloc();
    let whole = b"\x16\x82\x00\x01\xc0\x11\x00\x00\x00\x00\x00\x0cstratum=16\r\n";
    let late = b"\x16\x82\x00\x00\xc0\x11\x00\x00\x00\x00\x00\x0cstratum=16\r\n";
    let status = b"\x16\x81\x00\x01\xc0\x11\x00\x00\x00\x00\x00\x0cstratum=16\r\n";
    let request = b"\x16\x02\x00\x01\x00\x00\x00\x00\x00\x00\x00\x00";
    let stranger = Addr {
        ip: Ip::V4([10, 0, 0, 2]),
        port: 123,
    };
    let none = Vec::new(alloc);
    let failed = asked(alloc, vec![in alloc; Incoming::Fail]?, none)?.err();
    assert_eq!(rt; failed, Some(AskFault::Port));
    let unsent = asked(alloc, Vec::new(alloc), vec![in alloc; 0]?)?.err();
    assert_eq!(rt; unsent, Some(AskFault::Port));
    let silent = vec![in alloc;
        Incoming::Quiet,
        Incoming::Quiet,
        Incoming::Quiet,
        Incoming::Quiet,
        Incoming::Quiet,
    ]?;
    let none = Vec::new(alloc);
    assert_eq!(rt; asked(alloc, silent, none)?.err(), Some(AskFault::NoReply));
    let unused = vec![in alloc;
        datagram(stranger, whole),
        datagram(SERVER, late),
        datagram(SERVER, status),
        datagram(SERVER, request),
        datagram(SERVER, &whole[..11]),
    ]?;
    let none = Vec::new(alloc);
    assert_eq!(rt; asked(alloc, unused, none)?.err(), Some(AskFault::Closed));
    Ok(())
}

// The answer of two datagrams whose tag is 1 comes second, first; between them stands a fragment
// of the answer whose tag is 2.
#[test]
fn fragments_are_put_together_by_their_tags(rt: HostRuntime) -> Result<(), Fail> {
    let alloc = rt.alloc();
    let first = b"\x16\xa2\x00\x01\xc0\x11\x00\x00\x00\x00\x00\x22\
        resp=0x0000000000000001, leap=3,\r\n\x00\x00";
    let other = b"\x16\xa2\x00\x01\xc0\x12\x00\x00\x00\x00\x00\x22\
        resp=0x0000000000000002, leap=0,\r\n\x00\x00";
    let second = b"\x16\x82\x00\x01\xc0\x11\x00\x00\x00\x22\x00\x25\
        resp=0x0000000000000001, stratum=16\r\n\x00\x00\x00";
    let incoming = vec![in alloc;
        datagram(SERVER, second),
        datagram(SERVER, other),
        datagram(SERVER, second),
        datagram(SERVER, first),
    ]?;
    match asked(alloc, incoming, Vec::new(alloc))? {
        Ok((status, text)) => {
            assert_eq!(rt; status, 0xc011);
            assert!(rt; text.as_slice() == b"leap=3,\r\nstratum=16\r\n".as_slice());
        }
        Err(fault) => assert!(rt; false, "{fault:?}"),
    }
    Ok(())
}

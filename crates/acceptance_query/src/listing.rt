use edge_traits::{Event, Incoming, MAX_OCTETS, MemoryPort, Octets};
use mru_items::{MruFilter, Query, Shown, ShownRow};
use mrulist_reader::Listing;
use mrulist_run::run;
use net_addr::{Addr, Ip};
use ntpq_client::Client;
use ntpq_report::mru_report;
use std::test::Fail;

const SERVER: Addr = Addr {
    ip: Ip::V4([10, 0, 0, 2]),
    port: 123,
};

const QUERY: Query = Query {
    filter: MruFilter {
        mincount: 1,
        resall: 0,
        resany: 0,
    },
    limit: None,
    frags: 32,
};

/// A datagram of the server: a head and a body, as much of it as an `Octets` holds.
fn datagram(head: &[u8; 12], body: &[u8]) -> Incoming {
    let mut octets = Octets::new();
    octets.put(head);
    for octet in body {
        if octets.len() < MAX_OCTETS {
            octets.push(*octet);
        }
    }
    Incoming::Datagram(SERVER, octets)
}

#[test]
fn a_listing_of_one_page_asks_for_a_nonce_and_for_the_page(rt: HostRuntime) -> Result<(), Fail> {
    let alloc = rt.alloc();
    let nonce = b"nonce=0123456789abcdef01234567\r\n";
    let page =
        b"nonce=89abcdef0123456789abcdef, addr.0=10.0.0.1:123, last.0=0x83aa7e81.00000000,\r\n\
        first.0=0x83aa7e81.00000000, ct.0=1, mv.0=35, rs.0=0x0, now=0x83aa7ec1.00000000,\r\n\
        last.newest=0x83aa7e81.00000000\r\n\x00\x00\x00";
    let incoming = vec![in alloc;
        datagram(b"\x16\x8c\x00\x01\x00\x00\x00\x00\x00\x00\x00\x20", nonce),
        datagram(b"\x16\x8a\x00\x02\x00\x00\x00\x00\x00\x00\x00\xc5", page),
    ]?;
    let mut port = MemoryPort::of(alloc, incoming, Vec::new(alloc));
    let mut client = Client::new(alloc, SERVER);
    match run(alloc, &mut client, &QUERY, &mut port) {
        Ok(listing) => {
            let report = mru_report(alloc, &listing)?;
            assert!(rt; report.as_slice() == ONCE, "the report");
        }
        Err(fault) => assert!(rt; false, "{fault:?}"),
    }
    let first = b"\x16\x0c\x00\x01\x00\x00\x00\x00\x00\x00\x00\x00";
    let second = b"\x16\x0a\x00\x02\x00\x00\x00\x00\x00\x00\x00\x28\
        nonce=0123456789abcdef01234567, frags=32";
    match port.events() {
        [
            Event::Sent(_, one),
            Event::Took(_, _),
            Event::Sent(_, other),
            Event::Took(_, _),
        ] => {
            assert!(rt;
                one.as_slice() == first.as_slice(),
                "the request for a nonce"
            );
            assert!(rt;
                other.as_slice() == second.as_slice(),
                "the request for the page"
            );
        }
        _ => assert!(rt; false, "the events"),
    }
    Ok(())
}

/// The report of a client that arrived once, 64 seconds ago.
const ONCE: &[u8] =
    b"lstint avgint rstr m v  count rport remote address\n    64      0    0 3 4      1   123 10.0.0.1\n";

#[test]
fn a_line_tells_of_each_client(rt: HostRuntime) -> Result<(), Fail> {
    let alloc = rt.alloc();
    let once = ShownRow {
        addr: Addr {
            ip: Ip::V4([10, 0, 0, 1]),
            port: 123,
        },
        last: 0x83aa_7e81 << 32,
        first: 0x83aa_7e81 << 32,
        count: 1,
        mv: 35,
        flags: 0,
    };
    // It arrived three times in 11 seconds, the last time after the page was read.
    let often = ShownRow {
        addr: Addr {
            ip: Ip::V6([0; 16]),
            port: 50_000,
        },
        last: 0x83aa_7ec2 << 32,
        first: 0x83aa_7eb7 << 32,
        count: 3,
        mv: 16,
        flags: 0x05d0,
    };
    let listing = Listing {
        rows: Shown::of(vec![in alloc; once, often]?),
        now: 0x83aa_7ec1 << 32,
        pages: 1,
        refused: 0,
    };
    let report = mru_report(alloc, &listing)?;
    let line = b"     0      5  5d0 0 2      3 50000 ::\n";
    assert_eq!(rt; report.as_slice().len(), ONCE.len() + line.len());
    assert!(rt;
        report.as_slice().starts_with(ONCE),
        "the heading and the first line"
    );
    assert!(rt; report.as_slice().ends_with(line), "the second line");
    Ok(())
}

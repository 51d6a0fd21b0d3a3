use access_rules::{IGNORE, NOQUERY, NOSERVE};
use edge_traits::Salt;
use fixed_time::Ntp64;
use mac_keys::KeyTable;
use net_addr::{Addr, Ip, prefix_of};
use recency::Limits;
use server_core::{Book, Response, Silence, respond};
use std::alloc::Global;
use std::test::Fail;
use sys_vars::{Context, Record};

const CLIENT: Addr = Addr {
    ip: Ip::V4([10, 0, 0, 1]),
    port: 40000,
};

const CONTEXT: Context = Context {
    salt: Salt([0; 16]),
    origin: Ntp64(0),
    moment: 1 << 32,
};

/// A client's request of version 4.
const TIME: [u8; 48] = *b"\x23\x00\x06\xe9\
    \x00\x00\x00\x00\x00\x00\x00\x00\x00\x00\x00\x00\x00\x00\x00\x00\x00\x00\x00\x00\x00\x00\
    \x00\x00\x00\x00\x00\x00\x00\x00\x00\x00\x00\x00\x00\x00\x83\xaa\x7e\x80\x00\x00\x00\x00";

/// A control request: read the status.
const LOOK: [u8; 12] = *b"\x16\x01\x00\x01\x00\x00\x00\x00\x00\x00\x00\x00";

fn letter_of(response: &Response) -> u8 {
    match response {
        Response::Silent(Silence::Unheard(_)) => b'U',
        Response::Silent(Silence::Ignored) => b'I',
        Response::Silent(Silence::Limited) => b'L',
        Response::Time(..) => b'T',
        Response::Rate(_) => b'R',
        Response::Grams(_) => b'G',
        Response::Read(..) => b'P',
    }
}

/// The letter of the response to a datagram of a client with these flags, and how many entries
/// the journal then has.
fn responded(alloc: Global, flags: u16, datagram: &[u8]) -> Result<(u8, usize), Fail> {
    let mut record = Record::opening(alloc, Ntp64(0))?;
    record.rules.add(&prefix_of(&CLIENT.ip, 8), flags)?;
    let mut book = Book::begin(alloc, record, Limits::plain(), Ntp64(0))?;
    let keys = KeyTable::new(alloc);
    let response = respond(alloc, &mut book, &keys, &CONTEXT, &CLIENT, datagram)?;
    Ok((letter_of(&response), book.journal().len()))
}

#[test]
fn only_a_request_is_an_entry(rt: HostRuntime) -> Result<(), Fail> {
    let alloc = rt.alloc();
    assert!(rt; responded(alloc, 0, b"")? == (b'U', 0));
    assert!(rt; responded(alloc, 0, &TIME[..47])? == (b'U', 0));
    assert!(rt; responded(alloc, IGNORE, &TIME[..47])? == (b'U', 0));
    assert!(rt; responded(alloc, 0, &LOOK[..11])? == (b'U', 0));
    assert!(rt; responded(alloc, 0, &TIME)? == (b'T', 1));
    assert!(rt; responded(alloc, IGNORE, &TIME)? == (b'I', 1));
    assert!(rt; responded(alloc, NOSERVE, &TIME)? == (b'I', 1));
    assert!(rt; responded(alloc, NOSERVE, &LOOK)? == (b'G', 1));
    assert!(rt; responded(alloc, NOQUERY, &LOOK)? == (b'I', 1));
    Ok(())
}

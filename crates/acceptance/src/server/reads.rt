//! Reads of the client list. The nonces are those of 10.0.0.1 for a salt of 16 zero octets, by
//! Python's hashlib.

use edge_traits::{Grams, MAX_OCTETS, Octets, Salt};
use fixed_time::Ntp64;
use mac_keys::KeyTable;
use mode6_frame::{BAD_FORMAT, BAD_VALUE};
use net_addr::{Addr, Ip};
use recency::Limits;
use server_core::{Book, Class, Response, Unheard, classify, read_grams, respond};
use std::alloc::{AllocError, Global};
use std::test::Fail;
use sys_vars::{Context, Record, What};

const CLIENT: Addr = Addr {
    ip: Ip::V4([10, 0, 0, 1]),
    port: 123,
};

const SECOND: u64 = 1 << 32;

/// A client's request of version 4.
const TIME: [u8; 48] = *b"\x23\x00\x06\xe9\
    \x00\x00\x00\x00\x00\x00\x00\x00\x00\x00\x00\x00\x00\x00\x00\x00\x00\x00\x00\x00\x00\x00\
    \x00\x00\x00\x00\x00\x00\x00\x00\x00\x00\x00\x00\x00\x00\x83\xaa\x7e\x80\x00\x00\x00\x00";

/// Appends these octets, as many as there is room for.
fn append(octets: &mut Octets, bytes: &[u8]) {
    for byte in bytes {
        if octets.len() < MAX_OCTETS {
            octets.push(*byte);
        }
    }
}

/// The read of this number with this body.
fn read_of(sequence: u8, body: &[u8]) -> Octets {
    let mut octets = Octets::new();
    append(&mut octets, &[0x16, 0x0a, 0, sequence, 0, 0, 0, 0, 0, 0, 0]);
    append(&mut octets, &[body.len().min(255) as u8]);
    append(&mut octets, body);
    append(&mut octets, &[0; 3][..(4 - body.len() % 4) % 4]);
    octets
}

/// What a server with a salt of 16 zero octets, whose clocks begin with Unix time, knows at this
/// moment.
fn context_at(moment: u64) -> Context {
    Context {
        salt: Salt([0; 16]),
        origin: Ntp64(0x83aa_7e80_0000_0000),
        moment,
    }
}

/// What a read with this body is at this moment: `R` a read, `N` without a good nonce, `F` or `V`
/// refused for its format or its values, or `-` another.
fn class_of(alloc: Global, moment: u64, body: &[u8]) -> Result<u8, AllocError> {
    let read = read_of(3, body);
    let keys = KeyTable::new(alloc);
    let class = classify(alloc, read.as_slice(), &CLIENT, &keys, &context_at(moment))?;
    Ok(match &class {
        Class::Read(_) => b'R',
        Class::Silent(Unheard::BadNonce) => b'N',
        Class::Look(asked) => letter_of(&asked.what),
        _ => b'-',
    })
}

/// The letter of a refusal.
fn letter_of(what: &What) -> u8 {
    match what {
        What::Bad(BAD_FORMAT) => b'F',
        What::Bad(BAD_VALUE) => b'V',
        _ => b'-',
    }
}

#[test]
fn a_nonce_lives_16_seconds_and_comes_before_values(rt: HostRuntime) -> Result<(), Fail> {
    for (moment, body, class) in [
        (
            SECOND,
            b"nonce=83aa7e8100000000694741e8, frags=4".as_slice(),
            b'R',
        ),
        (
            17 * SECOND,
            b"nonce=83aa7e8100000000694741e8, frags=4".as_slice(),
            b'R',
        ),
        (
            17 * SECOND + 1,
            b"nonce=83aa7e8100000000694741e8, frags=4".as_slice(),
            b'N',
        ),
        (
            SECOND - 1,
            b"nonce=83aa7e8100000000694741e8, frags=4".as_slice(),
            b'N',
        ),
        // That of 10.0.0.2.
        (
            SECOND,
            b"nonce=83aa7e810000000033df2859, frags=4".as_slice(),
            b'N',
        ),
        (SECOND, b"frags=4".as_slice(), b'N'),
        (SECOND, b"nonce, frags=4".as_slice(), b'N'),
        (SECOND, b"nonce=83aa7e8100000000694741e8".as_slice(), b'V'),
        (
            SECOND,
            b"nonce=83aa7e8100000000694741e8, nonce=83aa7e8100000000694741e8, frags=4".as_slice(),
            b'V',
        ),
        (
            SECOND,
            b"nonce=83aa7e8100000000694741e8, frags=4, =".as_slice(),
            b'F',
        ),
    ] {
        assert!(rt; class_of(rt.alloc(), moment, body)? == class, "{body:?}");
    }
    Ok(())
}

/// A server whose clocks begin with Unix time.
fn begun(alloc: Global) -> Result<Book, AllocError> {
    let origin = context_at(0).origin;
    Book::begin(
        alloc,
        Record::opening(alloc, origin)?,
        Limits::plain(),
        origin,
    )
}

/// The datagram that answers one that came at this moment, if there is just one.
fn answer(alloc: Global, book: &mut Book, moment: u64, datagram: &[u8]) -> Result<Octets, Fail> {
    let context = context_at(moment);
    let keys = KeyTable::new(alloc);
    Ok(
        match respond(alloc, book, &keys, &context, &CLIENT, datagram)? {
            Response::Grams(grams) => only(&grams),
            Response::Read(from, head, reply) => {
                only(&read_grams(alloc, &reply, &from, &head, &context)?)
            }
            _ => Octets::new(),
        },
    )
}

/// The only one of these datagrams.
fn only(grams: &Grams) -> Octets {
    if grams.len() == 1 {
        grams.get(0).copy()
    } else {
        Octets::new()
    }
}

#[test]
fn a_page_of_an_empty_list_has_its_time_alone(rt: HostRuntime) -> Result<(), Fail> {
    let mut book = begun(rt.alloc())?;
    let read = read_of(3, b"nonce=83aa7e8100000000694741e8, frags=4");
    let page = answer(rt.alloc(), &mut book, SECOND, read.as_slice())?;
    assert!(rt;
        page.as_slice()
            == b"\x16\x8a\x00\x03\xc0\x11\x00\x00\x00\x00\x00\x39\
        nonce=83aa7e8100000000694741e8, now=0x83aa7e81.00000000\r\n\x00\x00\x00"
                .as_slice()
    );
    assert!(rt; book.stamp() == SECOND && book.journal().len() == 1);
    Ok(())
}

#[test]
fn a_page_tells_its_clients(rt: HostRuntime) -> Result<(), Fail> {
    let mut book = begun(rt.alloc())?;
    answer(rt.alloc(), &mut book, SECOND, &TIME)?;
    let read = read_of(3, b"nonce=83aa7ec100000000b6e331ac, frags=4");
    let page = answer(rt.alloc(), &mut book, 65 * SECOND, read.as_slice())?;
    let text = b"nonce=83aa7ec100000000b6e331ac, addr.0=10.0.0.1:123, \
        last.0=0x83aa7e81.00000000, first.0=0x83aa7e81.00000000, ct.0=1, mv.0=35, rs.0=0x0, \
        now=0x83aa7ec1.00000000, last.newest=0x83aa7e81.00000000\r\n";
    assert!(rt; page.as_slice().get(12..12 + text.len()) == Some(text.as_slice()));
    Ok(())
}

// The client asks for the time at the first second and at the third, and has moved.
#[test]
fn a_read_that_names_none_in_place_is_refused(rt: HostRuntime) -> Result<(), Fail> {
    let mut book = begun(rt.alloc())?;
    answer(rt.alloc(), &mut book, SECOND, &TIME)?;
    answer(rt.alloc(), &mut book, 3 * SECOND, &TIME)?;
    let read = read_of(
        4,
        b"nonce=83aa7e8300000000b9b3e4f2, frags=4, addr.0=10.0.0.1:123, last.0=0x83aa7e81.00000000",
    );
    let refusal = answer(rt.alloc(), &mut book, 3 * SECOND, read.as_slice())?;
    assert!(rt;
        refusal.as_slice() == b"\x16\xca\x00\x04\x05\x00\x00\x00\x00\x00\x00\x00".as_slice()
    );
    assert!(rt; book.stamp() == 3 * SECOND);
    Ok(())
}

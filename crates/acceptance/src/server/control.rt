use edge_traits::Salt;
use fixed_time::Ntp64;
use mac_keys::KeyTable;
use mode6_frame::{BAD_FORMAT, BAD_OPERATION, OP_READ_NONCE};
use net_addr::{Addr, Ip};
use server_core::{Class, classify};
use std::alloc::{AllocError, Global};
use std::test::Fail;
use sys_vars::{Context, What};

const CLIENT: Addr = Addr {
    ip: Ip::V4([192, 0, 2, 1]),
    port: 123,
};

/// What a control message asks for: the numbers of variables, or behind a 0 an error code, or
/// a 0 for a status or 12 for a nonce.
fn asked_for(alloc: Global, datagram: &[u8]) -> Result<Vec<u8>, AllocError> {
    let context = Context {
        salt: Salt([0; 16]),
        origin: Ntp64(0),
        moment: 0,
    };
    let keys = KeyTable::new(alloc);
    match classify(alloc, datagram, &CLIENT, &keys, &context)? {
        Class::Look(asked) => match asked.what {
            What::Status => Vec::from_slice(alloc, &[0, 0]),
            What::Vars(numbers) => Vec::from_slice(alloc, numbers.as_slice()),
            What::Nonce => Vec::from_slice(alloc, &[0, OP_READ_NONCE]),
            What::Bad(code) => Vec::from_slice(alloc, &[0, code]),
        },
        _ => Vec::from_slice(alloc, b"none"),
    }
}

#[test]
fn names_are_asked_for_by_their_numbers(rt: HostRuntime) -> Result<(), Fail> {
    let one = b"\x16\x02\x00\x01\x00\x00\x00\x00\x00\x00\x00\x07stratum\x00";
    assert!(rt; asked_for(rt.alloc(), one)?.as_slice() == b"\x02".as_slice());
    let three = b"\x26\x02\x00\x01\x00\x00\x00\x00\x00\x00\x00\x11refid=1,nope,leap\x00\x00\x00";
    assert!(rt; asked_for(rt.alloc(), three)?.as_slice() == b"\x06\xff\x01".as_slice());
    let of_association = b"\x16\x02\x00\x01\x00\x00\x00\x05\x00\x00\x00\x07stratum\x00";
    assert!(rt; asked_for(rt.alloc(), of_association)?.as_slice() == b"\x07".as_slice());
    Ok(())
}

#[test]
fn the_operation_goes_before_the_body(rt: HostRuntime) -> Result<(), Fail> {
    let status = b"\x16\x01\x00\x01\x00\x00\x00\x00\x00\x00\x00\x01=\x00\x00\x00";
    assert!(rt; asked_for(rt.alloc(), status)?.as_slice() == [0, 0].as_slice());
    let nonce = b"\x16\x0c\x00\x01\x00\x00\x00\x00\x00\x00\x00\x01=\x00\x00\x00";
    assert!(rt; asked_for(rt.alloc(), nonce)?.as_slice() == [0, OP_READ_NONCE].as_slice());
    let write = b"\x16\x03\x00\x01\x00\x00\x00\x00\x00\x00\x00\x01=\x00\x00\x00";
    assert!(rt; asked_for(rt.alloc(), write)?.as_slice() == [0, BAD_OPERATION].as_slice());
    Ok(())
}

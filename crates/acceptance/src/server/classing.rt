use edge_traits::Salt;
use fixed_time::Ntp64;
use mac_keys::{Auth, KeyTable};
use net_addr::{Addr, Ip};
use server_core::{Ask, Class, classify};
use std::test::Fail;
use sys_vars::Context;

const CLIENT: Addr = Addr {
    ip: Ip::V4([192, 0, 2, 1]),
    port: 123,
};

/// A request that leaves its client at the origin of Unix time.
const REQUEST: [u8; 48] = *b"\x23\x00\x06\xe9\
    \x00\x00\x00\x00\x00\x00\x00\x00\x00\x00\x00\x00\x00\x00\x00\x00\x00\x00\x00\x00\x00\x00\
    \x00\x00\x00\x00\x00\x00\x00\x00\x00\x00\x00\x00\x00\x00\x83\xaa\x7e\x80\x00\x00\x00\x00";

fn time_asked(class: &Class) -> Option<Ask> {
    match class {
        Class::Time(ask) => Some(*ask),
        Class::Silent(_) | Class::Look(_) | Class::Read(_) => None,
    }
}

#[test]
fn a_request_for_the_time_is_read(rt: HostRuntime) -> Result<(), Fail> {
    let keys = KeyTable::new(rt.alloc());
    let context = Context {
        salt: Salt([0; 16]),
        origin: Ntp64(0),
        moment: 0,
    };
    let class = classify(rt.alloc(), &REQUEST, &CLIENT, &keys, &context)?;
    let ask = time_asked(&class).ok_or("a request for the time")?;
    assert!(rt; ask.from == CLIENT);
    assert!(rt; ask.version == 4 && ask.poll == 6);
    assert!(rt; ask.transmit == Ntp64(0x83aa_7e80_0000_0000));
    assert!(rt; ask.auth == Auth::Absent);
    Ok(())
}

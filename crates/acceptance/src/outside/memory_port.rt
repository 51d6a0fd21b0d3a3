use edge_traits::{Event, Incoming, MemoryPort, Octets, Port, PortFault, Taken};
use net_addr::{Addr, Ip};
use std::test::Fail;

const CLIENT: Addr = Addr {
    ip: Ip::V4([192, 0, 2, 7]),
    port: 40_000,
};

#[test]
fn takes_follow_the_list_and_at_its_end_the_port_is_closed(rt: HostRuntime) -> Result<(), Fail> {
    let mut request = Octets::new();
    request.put(b"\x23\x00\x06\xe9");
    let datagram = Incoming::Datagram(CLIENT, request);
    let incoming = vec![in rt.alloc(); datagram, Incoming::Quiet, Incoming::Fail]?;
    let mut port = MemoryPort::of(rt.alloc(), incoming, Vec::new(rt.alloc()));

    let mut into = Octets::new();
    for (want, what) in [
        (Ok(Taken::Datagram(CLIENT)), "the datagram"),
        (Ok(Taken::Quiet), "the silence"),
        (Err(PortFault::Failed), "the fault"),
        (Ok(Taken::Closed), "the end"),
        (Ok(Taken::Closed), "the end again"),
    ] {
        assert_eq!(rt; port.take(&mut into), want, "{what}");
        assert_eq!(rt; into.as_slice(), b"\x23\x00\x06\xe9".as_slice(), "{what}");
    }
    assert!(rt; matches!(port.events(), [Event::Took(_, _), Event::Silence]));
    Ok(())
}

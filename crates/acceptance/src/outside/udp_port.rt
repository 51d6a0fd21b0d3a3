use edge_traits::{Octets, Port, PortFault, Taken, UdpPort};
use net_addr::{Addr, Ip};
use std::net::{IpAddr, Ipv4Addr, SocketAddr, UdpSocket};
use std::test::Fail;

const ANY_PORT: Addr = Addr {
    ip: Ip::V4([127, 0, 0, 1]),
    port: 0,
};

/// A port of this machine, as the system takes it.
fn at(port: u16) -> SocketAddr {
    SocketAddr::new(IpAddr::V4(Ipv4Addr::from_octets([127, 0, 0, 1])), port)
}

fn moves_to_a_thread<T: Send>(_port: &T) {}

#[test]
fn a_datagram_sent_to_itself_is_taken_and_then_it_is_quiet(rt: HostRuntime) -> Result<(), Fail> {
    let mut port = UdpPort::bind(&rt, &ANY_PORT)?;
    moves_to_a_thread(&port);
    let local = port.local().ok_or("the system tells no address")?;
    assert_eq!(rt; local.ip, ANY_PORT.ip);
    assert_ne!(rt; local.port, 0);

    let mut into = Octets::new();
    port.give(&local, b"\x23\x00\x06\xec")?;
    assert_eq!(rt; port.take(&mut into)?, Taken::Datagram(local));
    assert_eq!(rt; into.as_slice(), b"\x23\x00\x06\xec".as_slice());

    assert_eq!(rt; port.take(&mut into)?, Taken::Quiet);
    assert_eq!(rt; into.as_slice(), b"\x23\x00\x06\xec".as_slice());
    Ok(())
}

// Where the system has no IPv6, there is nothing to try.
#[test]
fn a_port_of_ipv6_sends_to_itself(rt: HostRuntime) -> Result<(), Fail> {
    let at = Addr {
        ip: Ip::V6([0, 0, 0, 0, 0, 0, 0, 0, 0, 0, 0, 0, 0, 0, 0, 1]),
        port: 0,
    };
    let Ok(mut port) = UdpPort::bind(&rt, &at) else {
        return Ok(());
    };
    let local = port.local().ok_or("the system tells no address")?;
    assert_eq!(rt; local.ip, at.ip);

    let mut into = Octets::new();
    port.give(&local, b"\x23\x00\x06\xec")?;
    assert_eq!(rt; port.take(&mut into)?, Taken::Datagram(local));
    assert_eq!(rt; into.as_slice(), b"\x23\x00\x06\xec".as_slice());
    Ok(())
}

// The other port is of IPv4, and its address is the same both ways.
#[test]
fn a_port_for_both_families_talks_to_ipv4(rt: HostRuntime) -> Result<(), Fail> {
    let any = Addr {
        ip: Ip::V4([0; 4]),
        port: 0,
    };
    let mut both = UdpPort::bind_both(&rt, &any)?;
    let mut port = UdpPort::bind(&rt, &ANY_PORT)?;
    let local = port.local().ok_or("the system tells no address")?;

    let mut into = Octets::new();
    both.give(&local, b"asked")?;
    let Taken::Datagram(from) = port.take(&mut into)? else {
        panic!(rt; "nothing came")
    };
    assert_eq!(rt; from.ip, ANY_PORT.ip);
    port.give(&from, b"answered")?;
    assert_eq!(rt; both.take(&mut into)?, Taken::Datagram(local));
    assert_eq!(rt; into.as_slice(), b"answered".as_slice());
    Ok(())
}

#[test]
fn a_datagram_of_3000_octets_is_cut_at_2048(rt: HostRuntime) -> Result<(), Fail> {
    let mut port = UdpPort::bind(&rt, &ANY_PORT)?;
    let local = port.local().ok_or("the system tells no address")?;
    let sender = UdpSocket::bind(&rt, at(0))?;
    sender.send_to(&[7; 3000], at(local.port))?;

    let mut into = Octets::new();
    port.take(&mut into)?;
    assert_eq!(rt; into.len(), 2048);
    Ok(())
}

#[test]
fn a_datagram_to_port_0_fails(rt: HostRuntime) -> Result<(), Fail> {
    let mut port = UdpPort::bind(&rt, &ANY_PORT)?;
    assert_eq!(rt; port.give(&ANY_PORT, b"lost"), Err(PortFault::Failed));
    Ok(())
}

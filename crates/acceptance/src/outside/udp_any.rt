use edge_traits::{Octets, Port, PortFault, Taken, UdpAny, UdpPort};
use net_addr::{Addr, Ip};
use std::net::Net;
use std::test::Fail;

/// What a server of this address takes of a client's datagram, and the client of the server's;
/// none where the system has no such address.
fn both_ways<N: Net>(net: &N, client: &mut UdpAny<N>, ip: Ip) -> Result<Option<bool>, Fail> {
    let Ok(mut server) = UdpPort::bind(net, &Addr { ip, port: 0 }) else {
        return Ok(None);
    };
    let at = server.local().ok_or("the system tells no address")?;
    let mut into = Octets::new();
    client.give(&at, b"ask")?;
    let Taken::Datagram(from) = server.take(&mut into)? else {
        return Ok(Some(false));
    };
    server.give(&from, b"answer")?;
    let taken = client.take(&mut into)?;
    Ok(Some(taken == Taken::Datagram(at) && into.as_slice() == b"answer".as_slice()))
}

#[test]
fn a_client_has_one_socket_a_family(rt: HostRuntime) -> Result<(), Fail> {
    let mut client = UdpAny::new(rt);
    let mut into = Octets::new();
    assert_eq!(rt; client.take(&mut into)?, Taken::Quiet);
    let v4 = Ip::V4([127, 0, 0, 1]);
    let v6 = Ip::V6([0, 0, 0, 0, 0, 0, 0, 0, 0, 0, 0, 0, 0, 0, 0, 1]);
    assert_eq!(rt; both_ways(&rt, &mut client, v4)?, Some(true));
    assert_ne!(rt; both_ways(&rt, &mut client, v6)?, Some(false));
    assert_eq!(rt; both_ways(&rt, &mut client, v4)?, Some(true));
    let nowhere = Addr { ip: v4, port: 0 };
    assert_eq!(rt; client.give(&nowhere, b"lost"), Err(PortFault::Failed));
    Ok(())
}

ghost use Rattle.std.specs.Prelude.{◌≡◌, IfOk};
ghost use Rattle.std.specs.Net.Addr.{ipv6_octets};
ghost use Rattle.std.specs.Net.Socket.{IsPlainSocket, socket_ip, socket_port};
ghost use Rattle.edge_traits.specs.Sockets.{IsMapped, ip_in};

use crate::octets::Octets;
use crate::port::{Port, PortFault, Taken};
use net_addr::{Addr, Ip};
use std::io;
use std::io::ErrorKind;
use std::net::{IpAddr, Ipv4Addr, Ipv6Addr, Net, SocketAddr, UdpSocket};
use std::time::Duration;

/// How long a take waits for a datagram, in seconds.
const WAIT: u64 = 1;

/// A UDP socket of the system, of the family of its address or of both. A take waits one second for
/// a datagram before it is quiet. The port is never closed, and tells nothing of its datagrams.
///
/// It knows no zones (RFC 4007, section 6): a take drops the zone of a link-local sender, and a give
/// to that address, whose interface the zone would name, may fail.
#[derive(Drop)]
pub struct UdpPort {
    socket: UdpSocket,
    address: Addr,
    // Whether the socket is one of IPv6 for both families: an address of IPv4 is mapped where the
    // system sees it (RFC 4291, section 2.5.5.2), and nowhere else.
    maps: bool,
    // A take receives here, since std does not say what a receive that fails leaves in its buffer.
    // What came before is still there, so that no take has to clear it.
    received: [u8; 2048],
    faults: u64,
    quiets: u64,
}

impl UdpPort {
    /// A port of this address; at port 0 the system chooses one, which `local` tells. The error is
    /// the system's.
    pub fn bind<N: Net>(net: &N, at: &Addr) -> io::Result<UdpPort>
        ensures address { IfOk result (λ p. ⟦<UdpPort as Port>⟧.address p ≡ at.now) }
        ensures faults { IfOk result (λ p. ⟦<UdpPort as Port>⟧.faults p ≡ 0) }
        ensures quiets { IfOk result (λ p. ⟦<UdpPort as Port>⟧.quiets p ≡ 0) }
    {
        UdpPort::open(net, socket_address(at), at, false)
    }

    /// A port of this address for datagrams of both families: one socket of IPv6 at the address's
    /// port, which takes and gives those of IPv4 too. Where the system has no IPv6 it is one of the
    /// address's own family. The error is the system's.
    pub fn bind_both<N: Net>(net: &N, at: &Addr) -> io::Result<UdpPort>
        ensures address { IfOk result (λ p. ⟦<UdpPort as Port>⟧.address p ≡ at.now) }
        ensures faults { IfOk result (λ p. ⟦<UdpPort as Port>⟧.faults p ≡ 0) }
        ensures quiets { IfOk result (λ p. ⟦<UdpPort as Port>⟧.quiets p ≡ 0) }
    {
        let both = SocketAddr::new(IpAddr::V6(Ipv6Addr::from_octets([0; 16])), at.port);
        match UdpPort::open(net, both, at, true) {
            Ok(port) => Ok(port),
            Err(_) => UdpPort::bind(net, at),
        }
    }

    /// A port of this address, whose socket the system binds at `bound`.
    fn open<N: Net>(net: &N, bound: SocketAddr, at: &Addr, maps: bool) -> io::Result<UdpPort>
        ensures address { IfOk result (λ p. p.address ≡ at.now) }
        ensures faults { IfOk result (λ p. p.faults ≡ 0) }
        ensures quiets { IfOk result (λ p. p.quiets ≡ 0) }
    {
        let socket = UdpSocket::bind(net, bound)?;
        socket.set_read_timeout(Some(Duration::from_secs(WAIT)))?;
        Ok(UdpPort {
            socket,
            address: *at,
            maps,
            received: [0; 2048],
            faults: 0,
            quiets: 0,
        })
    }

    /// The address that the system gave the socket; None where the system does not tell it.
    pub fn local(&self) -> Option<Addr> {
        match self.socket.local_addr() {
            Ok(local) => Some(address_of(local)),
            Err(_) => None,
        }
    }

    /// An address where the system sees it.
    fn outside(&self, at: SocketAddr) -> SocketAddr {
        if self.maps {
            SocketAddr::new(mapped(at.ip()), at.port())
        } else {
            at
        }
    }

    /// An address that the system tells, as it is seen here.
    fn inside(&self, at: SocketAddr) -> SocketAddr {
        if self.maps {
            SocketAddr::new(at.ip().to_canonical(), at.port())
        } else {
            at
        }
    }
}

impl Port for UdpPort {
    ghost use Rattle.std.specs.Prelude.{None, false};
    ghost use Rattle.edge_traits.specs.declared.octets.TheConstants.{MAX_OCTETS};

    ghost trace = { λ _. None };

    ghost faults = { λ p. p.faults };

    ghost quiets = { λ p. p.quiets };

    ghost is_closed = { λ _. false };

    ghost address = { λ p. p.address };

    ghost most = { λ _. MAX_OCTETS };

    fn take(&mut self, into: &mut Octets) -> Result<Taken, PortFault> {
        match self.socket.recv_from(&mut self.received) {
            Ok((length, from)) => {
                into.clear();
                into.put(&self.received[..length]);
                Ok(Taken::Datagram(address_of(self.inside(from))))
            }
            Err(error) if is_quiet(error.kind()) => {
                self.quiets = self.quiets.saturating_add(1);
                Ok(Taken::Quiet)
            }
            Err(_) => {
                self.faults = self.faults.saturating_add(1);
                Err(PortFault::Failed)
            }
        }
    }

    fn give(&mut self, to: &Addr, octets: &[u8]) -> Result<(), PortFault> {
        match self
            .socket
            .send_to(octets, self.outside(socket_address(to)))
        {
            Ok(sent) if sent == octets.len() => Ok(()),
            _ => {
                self.faults = self.faults.saturating_add(1);
                Err(PortFault::Failed)
            }
        }
    }
}

/// Whether a receive that failed in this way says only that nothing came.
fn is_quiet(kind: ErrorKind) -> bool {
    match kind {
        ErrorKind::WouldBlock | ErrorKind::TimedOut | ErrorKind::Interrupted => true,
        // Linux tells a socket's next call that a datagram sent before was refused where it went
        // (an ICMP answer). The socket itself is sound, and no client may stop a server by this.
        ErrorKind::ConnectionRefused => true,
        _ => false,
    }
}

/// An address as a socket of IPv6 for both families takes it.
fn mapped(ip: IpAddr) -> IpAddr
    ensures { IsMapped ip result }
{
    match ip {
        IpAddr::V4(ip) => IpAddr::V6(ip.to_ipv6_mapped()),
        IpAddr::V6(_) => ip,
    }
}

/// An address as the system takes it, without a zone.
fn socket_address(at: &Addr) -> SocketAddr
    ensures ip { ip_in (socket_ip result) ≡ at.now.ip }
    ensures plain { IsPlainSocket result at.now.port }
{
    SocketAddr::new(system_ip(&at.ip), at.port)
}

fn system_ip(ip: &Ip) -> IpAddr
    ensures { ip_in result ≡ ip.now }
{
    match ip {
        Ip::V4(octets) => IpAddr::V4(Ipv4Addr::from_octets(*octets)),
        Ip::V6(octets) => IpAddr::V6(system_v6(octets)),
    }
}

fn system_v6(octets: &[u8; 16]) -> Ipv6Addr
    ensures { ipv6_octets result ≡ octets.now }
{
    Ipv6Addr::from_octets(*octets)
}

/// An address that the system tells; a zone that it has is dropped.
fn address_of(at: SocketAddr) -> Addr
    ensures ip { result.ip ≡ ip_in (socket_ip at) }
    ensures port { result.port ≡ socket_port at }
{
    let ip = match at.ip() {
        IpAddr::V4(ip) => Ip::V4(ip.octets()),
        IpAddr::V6(ip) => Ip::V6(ip.octets()),
    };
    Addr {
        ip,
        port: at.port(),
    }
}

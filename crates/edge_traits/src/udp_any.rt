ghost use Rattle.std.specs.Prelude.{◌≡◌, ◌≢◌, ◌≤◌, Ok, OnErr, length};
ghost use Rattle.edge_traits.specs.declared.octets.TheConstants.{MAX_OCTETS};
ghost use Rattle.edge_traits.specs.declared.port.Taken.{Taken};
ghost use Rattle.edge_traits.specs.declared.udp_any.TheConstants.{ANY_V4};

use crate::octets::Octets;
use crate::port::{Port, PortFault, Taken};
use crate::udp_port::UdpPort;
use net_addr::{Addr, Ip};
use std::net::Net;

/// Any address and port of IPv4: the system chooses.
const ANY_V4: Addr = Addr {
    ip: Ip::V4([0; 4]),
    port: 0,
};

/// Any address and port of IPv6.
const ANY_V6: Addr = Addr {
    ip: Ip::V6([0; 16]),
    port: 0,
};

/// UDP sockets of the system for a client, one a family. Each is opened at the first give to an
/// address of its family, which fails where that fails. A take waits at the socket of the last give
/// for a second before it is quiet; before the first give it is quiet at once. The port is never
/// closed, and tells nothing of its datagrams.
#[derive(Drop)]
pub struct UdpAny<N> {
    net: N,
    v4: Option<UdpPort>,
    v6: Option<UdpPort>,
    /// Whether the last give went to an address of IPv6.
    gave_v6: bool,
    faults: u64,
    quiets: u64,
}

impl<N: Net> UdpAny<N> {
    /// A port without sockets yet.
    pub fn new(net: N) -> UdpAny<N>
        ensures address { ⟦<UdpAny<N> as Port>⟧.address result ≡ ANY_V4 }
        ensures faults { ⟦<UdpAny<N> as Port>⟧.faults result ≡ 0 }
        ensures quiets { ⟦<UdpAny<N> as Port>⟧.quiets result ≡ 0 }
    {
        UdpAny {
            net,
            v4: None,
            v6: None,
            gave_v6: false,
            faults: 0,
            quiets: 0,
        }
    }
}

impl<N: Net> Port for UdpAny<N> {
    ghost use Rattle.std.specs.Prelude.{None, false};
    ghost use Rattle.edge_traits.specs.declared.octets.TheConstants.{MAX_OCTETS};
    ghost use Rattle.edge_traits.specs.declared.udp_any.TheConstants.{ANY_V4};

    ghost trace = { λ _. None };

    ghost faults = { λ p. p.faults };

    ghost quiets = { λ p. p.quiets };

    ghost is_closed = { λ _. false };

    ghost address = { λ _. ANY_V4 };

    ghost most = { λ _. MAX_OCTETS };

    fn take(&mut self, into: &mut Octets) -> Result<Taken, PortFault> {
        let taken = if self.gave_v6 {
            take_by(&mut self.v6, into)
        } else {
            take_by(&mut self.v4, into)
        };
        match taken {
            Ok(Taken::Quiet) => self.quiets = self.quiets.saturating_add(1),
            Err(_) => self.faults = self.faults.saturating_add(1),
            Ok(_) => {}
        }
        taken
    }

    fn give(&mut self, to: &Addr, octets: &[u8]) -> Result<(), PortFault> {
        self.gave_v6 = is_v6(to);
        let given = if self.gave_v6 {
            give_by(&mut self.v6, &self.net, &ANY_V6, to, octets)
        } else {
            give_by(&mut self.v4, &self.net, &ANY_V4, to, octets)
        };
        if given.is_err() {
            self.faults = self.faults.saturating_add(1);
        }
        given
    }
}

/// Whether an address is one of IPv6.
fn is_v6(at: &Addr) -> bool {
    matches!(at.ip, Ip::V6(_))
}

/// Takes a datagram by a socket; one that is not open yet is quiet.
fn take_by(socket: &mut Option<UdpPort>, into: &mut Octets) -> Result<Taken, PortFault>
    ensures quiet_kept { result ≡ Ok Taken.Quiet → into.new ≡ into.old }
    ensures open { result ≢ Ok Taken.Closed }
    ensures err { OnErr result (into.new ≡ into.old) }
{
    match socket {
        Some(port) => port.take(into),
        None => Ok(Taken::Quiet),
    }
}

/// Gives one datagram by a socket that is bound at `at`, and opened here where it is not yet.
fn give_by<N: Net>(
    socket: &mut Option<UdpPort>,
    net: &N,
    at: &Addr,
    to: &Addr,
    octets: &[u8],
) -> Result<(), PortFault>
    requires { length octets.now ≤ MAX_OCTETS }
{
    if let Some(port) = socket {
        return port.give(to, octets);
    }
    let Ok(mut port) = UdpPort::bind(net, at) else {
        return Err(PortFault::Failed);
    };
    let given = port.give(to, octets);
    *socket = Some(port);
    given
}

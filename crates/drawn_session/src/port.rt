ghost use Rattle.std.specs.Prelude.{◌≡◌};
ghost use Rattle.std.specs.List.{AllByRecursion};
ghost use Rattle.drawn_session.specs.Datagrams.{IsDrawn, datagrams_for};
ghost use Rattle.drawn_session.specs.Ports.{IsDrawnPort, new_port};

use crate::datagrams::{DrawnDatagram, octets_of};
use draws::client_addr;
use edge_traits::{Event, Octets, Port, PortFault, Taken};
use net_addr::Addr;
use std::alloc::Global;
use std::marker::Model;

/// A port in memory at which comes what a number draws for its host, in order; then it is closed. Its
/// takes and gives fail for want of memory alone.
#[derive(Drop)]
pub struct DrawnPort {
    number: u64,
    host: u16,
    // What comes in all, and how much of it was taken.
    datagrams: Vec<DrawnDatagram>,
    found: usize,
    events: Vec<Event>,
}

impl Model for DrawnPort {
    ghost use Rattle.std.specs.Prelude.{◌≡◌};
    ghost use Rattle.std.specs.List.{AllByRecursion};
    ghost use Rattle.drawn_session.specs.Datagrams.{IsDrawn, datagrams_for};
    ghost use Rattle.drawn_session.specs.Ports.{IsDrawnPort, PortParts};

    ghost Value = { PortParts };

    ghost view = { λ p. record {
      number = p.number;
      host = p.host;
      found = p.found;
      events = p.events.items;
    } };

    ghost invariant = { λ p. (p.datagrams.items ≡ datagrams_for p.number p.host)
        × AllByRecursion IsDrawn p.datagrams.items
        × IsDrawnPort (record {
          number = p.number;
          host = p.host;
          found = p.found;
          events = p.events.items;
        }) };
}

impl DrawnPort {
    /// The port of this host at which these datagrams come, which this number draws for it.
    pub(crate) fn of(
        alloc: Global,
        number: u64,
        host: u16,
        datagrams: Vec<DrawnDatagram>,
    ) -> DrawnPort
        requires drawn { datagrams.items ≡ datagrams_for number host }
        requires each { AllByRecursion IsDrawn datagrams.items }
        ensures { result ≡ new_port number host }
    {
        DrawnPort {
            number,
            host,
            datagrams,
            found: 0,
            events: Vec::new(alloc),
        }
    }

    /// The number by which it draws.
    pub fn number(&self) -> u64
        ensures { result ≡ self.now.number }
    {
        self.number
    }

    /// What happened so far, oldest first.
    pub fn events(&self) -> &[Event]
        ensures events { result.now ≡ self.now.events }
        ensures drawn { IsDrawnPort self.now }
    {
        self.events.as_slice()
    }
}

impl Port for DrawnPort {
    ghost use Rattle.drawn_session.specs.Ports.{address_of, faults_of, is_closed_of, most_of, quiets_of, trace_of};

    ghost trace = { trace_of };

    ghost faults = { faults_of };

    ghost quiets = { quiets_of };

    ghost is_closed = { is_closed_of };

    ghost address = { address_of };

    ghost most = { most_of };

    fn take(&mut self, into: &mut Octets) -> Result<Taken, PortFault> {
        if self.found >= self.datagrams.len() {
            return Ok(Taken::Closed);
        }
        let datagram = self.datagrams[self.found];
        let from = client_addr(datagram.client);
        let octets = octets_of(&datagram);
        if self.events.push(Event::Took(from, octets.copy())).is_err() {
            return Err(PortFault::NoMemory);
        }
        *into = octets;
        self.found += 1;
        Ok(Taken::Datagram(from))
    }

    fn give(&mut self, to: &Addr, octets: &[u8]) -> Result<(), PortFault> {
        let mut copy = Octets::new();
        copy.put(octets);
        if self.events.push(Event::Sent(*to, copy)).is_err() {
            return Err(PortFault::NoMemory);
        }
        Ok(())
    }
}

ghost use Rattle.std.specs.Prelude.{◌≡◌, ◌≤◌, ◌↔◌, ◌⊎◌, Some, [], ◌∷◌, nat_le, length, Contains, IsTrue, IsErrOf, OnOk, OnErr};
ghost use Rattle.edge_traits.specs.Told.{gained};
ghost use Rattle.edge_traits.specs.Trace.{taken_events, given_events};
ghost use Rattle.edge_traits.specs.Counts.{Counts, next_count};
ghost use Rattle.edge_traits.specs.Memory.{IsNewPort, coming, failing_gives, gives_made, taken_first, octets_first, coming_after};

use crate::calls::Calls;
use crate::octets::Octets;
use crate::port::{Event, Port, PortFault, Taken};
use net_addr::{Addr, Ip};
use std::alloc::Global;

/// What a take of a port in memory finds.
#[derive(Drop)]
pub enum Incoming {
    /// A datagram from this address.
    Datagram(Addr, Octets),
    /// Nothing for a while.
    Quiet,
    /// A fault of the port.
    Fail,
}

/// A port in memory. Its takes find what its list has, in order; at the list's end it is closed.
#[derive(Drop)]
pub struct MemoryPort {
    address: Addr,
    incoming: Vec<Incoming>,
    found: usize,
    gives: Calls,
    events: Vec<Event>,
    faults: u64,
    quiets: u64,
}

impl MemoryPort {
    /// A port of the address `0.0.0.0:0` whose takes find `incoming`. The gives that `failing`
    /// numbers, from 0, fail.
    pub fn of(alloc: Global, incoming: Vec<Incoming>, failing: Vec<u64>) -> MemoryPort
        ensures new { IsNewPort result }
        ensures coming { coming result ≡ incoming.items }
        ensures failing { failing_gives result ≡ failing.items }
        ensures given { gives_made result ≡ 0 }
        ensures address { ⟦<MemoryPort as Port>⟧.address result
            ≡ record { ip = Ip.V4 (0 ∷ 0 ∷ 0 ∷ 0 ∷ []); port = 0 } }
        ensures trace { ⟦<MemoryPort as Port>⟧.trace result ≡ Some [] }
        ensures faults { ⟦<MemoryPort as Port>⟧.faults result ≡ 0 }
        ensures quiets { ⟦<MemoryPort as Port>⟧.quiets result ≡ 0 }
    {
        MemoryPort {
            address: Addr {
                ip: Ip::V4([0, 0, 0, 0]),
                port: 0,
            },
            incoming,
            found: 0,
            gives: Calls::of(failing),
            events: Vec::new(alloc),
            faults: 0,
            quiets: 0,
        }
    }

    /// The same port, now of this address.
    pub(crate) fn bound_at(self, at: Addr) -> MemoryPort
        ensures { result ≡ record self { address = at } }
    {
        let mut port = self;
        port.address = at;
        port
    }

    /// What happened so far, oldest first.
    pub fn events(&self) -> &[Event]
        ensures { Some result.now ≡ ⟦<MemoryPort as Port>⟧.trace self.now }
    {
        self.events.as_slice()
    }
}

impl Port for MemoryPort {
    ghost use Rattle.edge_traits.specs.declared.octets.TheConstants.{MAX_OCTETS};

    ghost trace = { λ p. Some p.events.items };

    ghost faults = { λ p. p.faults };

    ghost quiets = { λ p. p.quiets };

    ghost is_closed = { λ p. nat_le (length p.incoming.items) p.found };

    ghost address = { λ p. p.address };

    ghost most = { λ _. MAX_OCTETS };

    fn take(&mut self, into: &mut Octets) -> Result<Taken, PortFault>
        // The first of what is to come, or want of memory.
        ensures found { (result ≡ taken_first (coming self.old))
            ⊎ (result ≡ Err PortFault.NoMemory) }
        ensures octets { OnOk result (into.new ≡ octets_first (coming self.old) into.old) }
        ensures err { OnErr result (into.new ≡ into.old) }
        ensures coming { coming self.new ≡ coming_after result (coming self.old) }

        // What takes no memory never wants it.
        ensures ends { (result ≡ Ok Taken.Closed) ↔ (coming self.old ≡ []) }
        ensures fails { (result ≡ Err PortFault.Failed)
            ↔ (taken_first (coming self.old) ≡ Err PortFault.Failed) }

        // What is told and counted.
        ensures told { ⟦<MemoryPort as Port>⟧.trace self.new
            ≡ gained (⟦<MemoryPort as Port>⟧.trace self.old) (taken_events result into.new) }
        ensures faults { Counts (IsErrOf result PortFault.Failed)
            (⟦<MemoryPort as Port>⟧.faults self.old) (⟦<MemoryPort as Port>⟧.faults self.new) }
        ensures quiets { Counts (result ≡ Ok Taken.Quiet)
            (⟦<MemoryPort as Port>⟧.quiets self.old) (⟦<MemoryPort as Port>⟧.quiets self.new) }
        ensures closed { result ≡ Ok Taken.Closed
            → IsTrue (⟦<MemoryPort as Port>⟧.is_closed self.new) }
        ensures closed_kept { result ≡ Ok Taken.Closed → self.new ≡ self.old }

        // The port stays the one that it is.
        ensures address_kept { ⟦<MemoryPort as Port>⟧.address self.new
            ≡ ⟦<MemoryPort as Port>⟧.address self.old }
        ensures failing_kept { failing_gives self.new ≡ failing_gives self.old }
        ensures given_kept { gives_made self.new ≡ gives_made self.old }
    {
        if self.found >= self.incoming.len() {
            return Ok(Taken::Closed);
        }
        match &self.incoming[self.found] {
            Incoming::Fail => {
                self.faults = self.faults.saturating_add(1);
                self.found += 1;
                Err(PortFault::Failed)
            }
            Incoming::Quiet => {
                if self.events.push(Event::Silence).is_err() {
                    return Err(PortFault::NoMemory);
                }
                self.quiets = self.quiets.saturating_add(1);
                self.found += 1;
                Ok(Taken::Quiet)
            }
            Incoming::Datagram(from, octets) => {
                let from = *from;
                let copy = octets.copy();
                if self.events.push(Event::Took(from, octets.copy())).is_err() {
                    return Err(PortFault::NoMemory);
                }
                *into = copy;
                self.found += 1;
                Ok(Taken::Datagram(from))
            }
        }
    }

    fn give(&mut self, to: &Addr, octets: &[u8]) -> Result<(), PortFault>
        requires { length octets.now ≤ MAX_OCTETS }
        ensures fails { IsErrOf result PortFault.Failed
            ↔ Contains (failing_gives self.old) (gives_made self.old) }
        ensures given { gives_made self.new ≡ next_count (gives_made self.old) }

        // What is told and counted.
        ensures told { ⟦<MemoryPort as Port>⟧.trace self.new
            ≡ gained (⟦<MemoryPort as Port>⟧.trace self.old)
            (given_events result to.now octets.now) }
        ensures faults { Counts (IsErrOf result PortFault.Failed)
            (⟦<MemoryPort as Port>⟧.faults self.old) (⟦<MemoryPort as Port>⟧.faults self.new) }

        // The port stays the one that it is.
        ensures quiets_same { ⟦<MemoryPort as Port>⟧.quiets self.new
            ≡ ⟦<MemoryPort as Port>⟧.quiets self.old }
        ensures address_kept { ⟦<MemoryPort as Port>⟧.address self.new
            ≡ ⟦<MemoryPort as Port>⟧.address self.old }
        ensures coming_kept { coming self.new ≡ coming self.old }
        ensures failing_kept { failing_gives self.new ≡ failing_gives self.old }
    {
        if self.gives.next_fails() {
            self.faults = self.faults.saturating_add(1);
            return Err(PortFault::Failed);
        }
        let mut copy = Octets::new();
        copy.put(octets);
        if self.events.push(Event::Sent(*to, copy)).is_err() {
            return Err(PortFault::NoMemory);
        }
        Ok(())
    }
}

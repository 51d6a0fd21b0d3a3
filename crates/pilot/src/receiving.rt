ghost use Rattle.std.specs.Prelude.{◌≡◌, ◌+◌, ◌≤◌, Some, IfSome, IsSome, IsTrue, length};
ghost use Rattle.server_core.specs.declared.op.Stop.{Stop};
ghost use Rattle.server_core.specs.States.{ServerState, stop_in};
ghost use Rattle.pilot.specs.Script.{ending};
ghost use Rattle.pilot.specs.Steps.{Receives, TakesIn};
ghost use Rattle.pilot.specs.Views.{Stays};
ghost use Rattle.pilot.specs.declared.flight.FlightEnd.{FlightEnd};

use crate::calling::{call, stop_for_fault};
use crate::flight::FlightEnd;
use crate::hearing::hear;
use crate::helm::Helm;
use crate::steering::Basis;
use edge_traits::{Clock, Octets, Port, PortFault, Taken};
use mac_keys::KeyTable;
use net_addr::Addr;
use server_core::{Book, Op, Stop};
use std::sync::Wait;
use turnstile::{Seat, Turnstile};

/// The end that a stop makes.
fn end_by(stop: Option<Stop>) -> Option<FlightEnd>
    ensures { result ≡ ending stop }
{
    match stop {
        None => None,
        Some(stop) => Some(FlightEnd::Ended(stop)),
    }
}

impl<P: Port, C: Clock> Helm<P, C> {
    /// Hears a datagram that came, and gives a record where one is due.
    fn take_in<R: Wait>(
        &mut self,
        rt: &R,
        basis: &Basis,
        keys: &KeyTable,
        door: &Turnstile<Book>,
        seat: &mut Seat<Book>,
        who: u32,
        from: &Addr,
        bytes: &[u8],
        at: u64,
    ) -> Option<Stop>
        requires own { seat.old.door ≡ door.now }
        requires room { length self.old.steering.peers + 1 ≤ length self.old.steering.due }
        ensures takes { (opening : ServerState) → seat.old.opening ≡ Some opening
            → TakesIn opening keys.now basis.now who at from.now bytes.now result
            self.old seat.old self.new seat.new }
        ensures stood { IsSome seat.old.opening
            → IfSome result (λ stop. stop_in seat.new.front ≡ Some stop) }
        ensures stays { Stays self.old seat.old self.new seat.new }
    {
        if hear(&mut self.steering, keys, from, bytes, at) {
            self.give_record(rt, basis, door, seat, who)
        } else {
            None
        }
    }

    /// Takes what the port gives: hears a datagram, sweeps the client list after a silence, and stops
    /// the server after a fault. Answers the end that this makes, if it makes one.
    pub(crate) fn receive<R: Wait>(
        &mut self,
        rt: &R,
        basis: &Basis,
        keys: &KeyTable,
        door: &Turnstile<Book>,
        seat: &mut Seat<Book>,
        who: u32,
        into: &mut Octets,
    ) -> Option<FlightEnd>
        requires own { seat.old.door ≡ door.now }
        requires room { length self.old.steering.peers + 1 ≤ length self.old.steering.due }
        ensures receives { (opening : ServerState) → seat.old.opening ≡ Some opening
            → Receives opening keys.now basis.now who result
            self.old seat.old self.new seat.new }
        ensures stood { IsSome seat.old.opening → (stop : Stop)
            → result ≡ Some (FlightEnd.Ended stop) → stop_in seat.new.front ≡ Some stop }
        ensures closed { result ≡ Some FlightEnd.Closed → IsTrue self.new.outside.closed }
        ensures stays { Stays self.old seat.old self.new seat.new }
    {
        match self.port.take(into) {
            Ok(Taken::Datagram(from)) => {
                let at = self.clock.now();
                let bytes = into.as_slice();
                end_by(self.take_in(rt, basis, keys, door, seat, who, &from, bytes, at))
            }
            Ok(Taken::Quiet) => {
                let at = self.clock.now();
                end_by(call(rt, door, seat, who, Op::Sweep(at)))
            }
            Ok(Taken::Closed) => Some(FlightEnd::Closed),
            Err(PortFault::Failed) => {
                Some(FlightEnd::Ended(stop_for_fault(rt, door, seat, who)))
            }
            Err(PortFault::NoMemory) => None,
        }
    }
}

ghost use Rattle.std.specs.Prelude.{◌≡◌, ◌+◌, ◌≤◌, None, Some, IsTrue, IsSome, length};
ghost use Rattle.associations.specs.declared.asking.TheConstants.{MAX_REQUEST_LEN};
ghost use Rattle.server_core.specs.declared.op.Stop.{Stop};
ghost use Rattle.server_core.specs.States.{ServerState, stop_in};
ghost use Rattle.pilot.specs.Flights.{IsFlight};
ghost use Rattle.pilot.specs.Steps.{TakesTurn};
ghost use Rattle.pilot.specs.Views.{Stays};
ghost use Rattle.pilot.specs.declared.flight.FlightEnd.{FlightEnd};

use crate::helm::Helm;
use crate::steering::{Basis, begin};
use edge_traits::{Clock, Octets, Port};
use mac_keys::KeyTable;
use server_core::{Book, Stop};
use std::sync::Wait;
use turnstile::{Seat, Turnstile};

/// How a flight ended.
#[derive(Clone, Copy, Debug, PartialEq, Eq)]
pub enum FlightEnd {
    /// The port is closed.
    Closed,
    /// This stop stands.
    Ended(Stop),
}

impl<P: Port, C: Clock> Helm<P, C> {
    /// Makes one turn: reads the clock, does what is due, and takes what the port gives. Answers the
    /// end that this makes, if it makes one.
    fn turn<R: Wait>(
        &mut self,
        rt: &R,
        basis: &Basis,
        keys: &KeyTable,
        door: &Turnstile<Book>,
        seat: &mut Seat<Book>,
        who: u32,
        into: &mut Octets,
    ) -> Option<FlightEnd>
        requires own { seat.old.door ≡ door.now }
        requires most { MAX_REQUEST_LEN ≤ self.old.outside.most }
        requires room { length self.old.steering.peers + 1 ≤ length self.old.steering.due }
        ensures turns { (opening : ServerState) → seat.old.opening ≡ Some opening
            → TakesTurn opening keys.now basis.now who result
            self.old seat.old self.new seat.new }
        ensures stood { IsSome seat.old.opening → (stop : Stop)
            → result ≡ Some (FlightEnd.Ended stop) → stop_in seat.new.front ≡ Some stop }
        ensures closed { result ≡ Some FlightEnd.Closed → IsTrue self.new.outside.closed }
        ensures stays { Stays self.old seat.old self.new seat.new }
    {
        let at = self.clock.now();
        begin(&mut self.steering, at);
        match self.do_due(rt, basis, keys, door, seat, who, at) {
            Some(stop) => Some(FlightEnd::Ended(stop)),
            None => self.receive(rt, basis, keys, door, seat, who, into),
        }
    }

    /// Goes from turn to turn until one makes an end.
    pub(crate) fn fly<R: Wait>(
        &mut self,
        rt: &R,
        basis: &Basis,
        keys: &KeyTable,
        door: &Turnstile<Book>,
        seat: &mut Seat<Book>,
        who: u32,
    ) -> FlightEnd
        requires own { seat.old.door ≡ door.now }
        requires most { MAX_REQUEST_LEN ≤ self.old.outside.most }
        requires room { length self.old.steering.peers + 1 ≤ length self.old.steering.due }
        ensures flew { (opening : ServerState) → seat.old.opening ≡ Some opening
            → IsFlight opening keys.now basis.now who result self.old seat.old self.new seat.new }
        ensures stood { IsSome seat.old.opening
            → (stop : Stop) → result ≡ FlightEnd.Ended stop → stop_in seat.new.front ≡ Some stop }
        ensures closed { result ≡ FlightEnd.Closed → IsTrue self.new.outside.closed }
        ensures stays { Stays self.old seat.old self.new seat.new }
    {
        let mut into = Octets::new();
        'flying: for _ in rt.forever() {
            match self.turn(rt, basis, keys, door, seat, who, &mut into) {
                None => {}
                Some(end) => return end,
            }
        }
        unreachable!()
    }
}

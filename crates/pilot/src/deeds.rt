ghost use Rattle.std.specs.Prelude.{◌≡◌, ◌≢◌, ◌≤◌, ◌<◌, Some, IfSome, IsSome, length};
ghost use Rattle.associations.specs.Taking.{HasPeer};
ghost use Rattle.associations.specs.declared.asking.TheConstants.{MAX_REQUEST_LEN};
ghost use Rattle.server_core.specs.declared.op.Stop.{Stop};
ghost use Rattle.server_core.specs.States.{ServerState, stop_in};
ghost use Rattle.pilot.specs.Steering.{ticked_at};
ghost use Rattle.pilot.specs.Steps.{AsksAt, DoesDue, DoesFirst, GivesAt, doing_of};
ghost use Rattle.pilot.specs.Views.{Stays};
ghost use Rattle.pilot.specs.declared.deeds.Doing.{Doing};
ghost use Rattle.pilot.specs.declared.steering.TheConstants.{TICK_KEY};

use crate::helm::Helm;
use crate::steering::{Basis, TICK_KEY, tick};
use edge_traits::{Clock, Port};
use mac_keys::KeyTable;
use server_core::{Book, Stop};
use std::sync::Wait;
use turnstile::{Seat, Turnstile};

/// What became of the first deed that was due.
#[derive(Clone, Copy)]
pub(crate) enum Doing {
    /// None was due.
    NoneDue,
    /// It was done.
    Done,
    /// It was done, but its record was refused, and this stop stands.
    Refused(Stop),
}

/// What a deed was whose record met this stop, or none.
fn done(stop: Option<Stop>) -> Doing
    ensures { result ≡ doing_of stop }
{
    match stop {
        None => Doing::Done,
        Some(stop) => Doing::Refused(stop),
    }
}

impl<P: Port, C: Clock> Helm<P, C> {
    /// Ticks the discipline, and gives a record.
    fn tick_and_give<R: Wait>(
        &mut self,
        rt: &R,
        basis: &Basis,
        door: &Turnstile<Book>,
        seat: &mut Seat<Book>,
        who: u32,
        at: u64,
    ) -> Option<Stop>
        requires own { seat.old.door ≡ door.now }
        requires room { TICK_KEY < length self.old.steering.due }
        ensures gives { (opening : ServerState) → seat.old.opening ≡ Some opening
            → GivesAt opening basis.now who (ticked_at at self.old.steering) result
            self.old seat.old self.new seat.new }
        ensures stood { IsSome seat.old.opening
            → IfSome result (λ stop. stop_in seat.new.front ≡ Some stop) }
        ensures stays { Stays self.old seat.old self.new seat.new }
    {
        tick(&mut self.steering, at);
        self.give_record(rt, basis, door, seat, who)
    }

    /// Sends a server its request, and gives a record.
    fn ask_and_give<R: Wait>(
        &mut self,
        rt: &R,
        basis: &Basis,
        keys: &KeyTable,
        door: &Turnstile<Book>,
        seat: &mut Seat<Book>,
        who: u32,
        at: u64,
        peer: u16,
    ) -> Option<Stop>
        requires own { seat.old.door ≡ door.now }
        requires most { MAX_REQUEST_LEN ≤ self.old.outside.most }
        requires there { HasPeer self.old.steering.peers peer }
        requires room { peer < length self.old.steering.due }
        ensures asks { (opening : ServerState) → seat.old.opening ≡ Some opening
            → AsksAt opening keys.now basis.now who at peer result
            self.old seat.old self.new seat.new }
        ensures stood { IsSome seat.old.opening
            → IfSome result (λ stop. stop_in seat.new.front ≡ Some stop) }
        ensures stays { Stays self.old seat.old self.new seat.new }
    {
        self.ask(keys, at, peer);
        self.give_record(rt, basis, door, seat, who)
    }

    /// Does the first deed that is due at the moment.
    fn do_first<R: Wait>(
        &mut self,
        rt: &R,
        basis: &Basis,
        keys: &KeyTable,
        door: &Turnstile<Book>,
        seat: &mut Seat<Book>,
        who: u32,
        at: u64,
    ) -> Doing
        requires own { seat.old.door ≡ door.now }
        requires most { MAX_REQUEST_LEN ≤ self.old.outside.most }
        ensures does { (opening : ServerState) → seat.old.opening ≡ Some opening
            → DoesFirst opening keys.now basis.now who at result
            self.old seat.old self.new seat.new }
        ensures stood { IsSome seat.old.opening
            → (stop : Stop) → result ≡ Doing.Refused stop → stop_in seat.new.front ≡ Some stop }
        ensures stays { Stays self.old seat.old self.new seat.new }
    {
        let Some(key) = self.steering.due.take_due(at) else {
            return Doing::NoneDue;
        };
        if key == TICK_KEY {
            done(self.tick_and_give(rt, basis, door, seat, who, at))
        } else {
            done(self.ask_and_give(rt, basis, keys, door, seat, who, at, key as u16))
        }
    }

    /// Does all that is due at the moment, by due time and then by key, up to a deed whose record is
    /// refused: then the stop that stands is answered.
    pub(crate) fn do_due<R: Wait>(
        &mut self,
        rt: &R,
        basis: &Basis,
        keys: &KeyTable,
        door: &Turnstile<Book>,
        seat: &mut Seat<Book>,
        who: u32,
        at: u64,
    ) -> Option<Stop>
        requires own { seat.old.door ≡ door.now }
        requires most { MAX_REQUEST_LEN ≤ self.old.outside.most }
        ensures does { (opening : ServerState) → seat.old.opening ≡ Some opening
            → DoesDue opening keys.now basis.now who at result
            self.old seat.old self.new seat.new }
        ensures stood { IsSome seat.old.opening
            → IfSome result (λ stop. stop_in seat.new.front ≡ Some stop) }
        ensures stays { Stays self.old seat.old self.new seat.new }
    {
        'doing: for _ in rt.forever() {
            match self.do_first(rt, basis, keys, door, seat, who, at) {
                Doing::Done => {}
                Doing::NoneDue => return None,
                Doing::Refused(stop) => return Some(stop),
            }
        }
        unreachable!()
    }
}

ghost use Rattle.std.specs.Prelude.{◌≡◌, ◌≤◌, [], false, None, Some, IsTrue, IsSome, OnOk, OnErr};
ghost use Rattle.associations.specs.declared.asking.TheConstants.{MAX_REQUEST_LEN};
ghost use Rattle.server_core.specs.declared.op.Stop.{Stop};
ghost use Rattle.server_core.specs.States.{ServerState, stop_in};
ghost use Rattle.pilot.specs.Flights.{Flies, IsReady, readied_for};
ghost use Rattle.pilot.specs.Views.{Stays};

use crate::flight::FlightEnd;
use crate::helm::Helm;
use crate::steering::{Basis, Steering, take_over};
use associations::Peers;
use discipline::Loop;
use edge_traits::{Clock, Port};
use mac_keys::KeyTable;
use server_core::Book;
use std::alloc::{AllocError, Global};
use std::marker::Model;
use std::sync::Wait;
use sys_vars::Record;
use turnstile::{Seat, Turnstile};

/// The one who keeps a server's time, at its port and by its clock.
#[derive(Drop)]
pub struct Pilot<P: Port, C: Clock> {
    helm: Helm<P, C>,
    basis: Option<Basis>,
}

impl<P: Port, C: Clock> Model for Pilot<P, C> {
    ghost use Rattle.pilot.specs.Views.{PilotParts};

    ghost Value = { PilotParts };

    ghost view = { λ p. record { helm = p.helm; basis = p.basis } };
}

impl<P: Port, C: Clock> Pilot<P, C> {
    /// A pilot that asks these servers at this port, by this clock. Nothing is due before its first
    /// reading.
    pub fn new(alloc: Global, port: P, clock: C, peers: Peers, engine: Loop) -> Pilot<P, C>
        ensures trace { result.helm.outside.trace ≡ P.trace port }
        ensures faults { result.helm.outside.faults ≡ P.faults port }
        ensures quiets { result.helm.outside.quiets ≡ P.quiets port }
        ensures closed { result.helm.outside.closed ≡ P.is_closed port }
        ensures address { result.helm.outside.address ≡ P.address port }
        ensures most { result.helm.outside.most ≡ P.most port }
        ensures readings { result.helm.outside.readings ≡ C.readings clock }
        ensures peers { result.helm.steering.peers ≡ peers }
        ensures engine { result.helm.steering.engine ≡ engine }
        ensures epoch { result.helm.steering.epoch ≡ 0 }
        ensures due { result.helm.steering.due ≡ [] }
        ensures begun { result.helm.steering.begun ≡ false }
        ensures left { result.helm.left ≡ 0 }
        ensures basis { result.basis ≡ None }
    {
        let steering = Steering::of(alloc, peers, engine);
        Pilot {
            helm: Helm {
                alloc,
                port,
                clock,
                steering,
                left: 0,
            },
            basis: None,
        }
    }

    /// Its port.
    pub fn port(&self) -> &P
        ensures trace { P.trace result.now ≡ self.now.helm.outside.trace }
        ensures faults { P.faults result.now ≡ self.now.helm.outside.faults }
        ensures quiets { P.quiets result.now ≡ self.now.helm.outside.quiets }
        ensures closed { P.is_closed result.now ≡ self.now.helm.outside.closed }
        ensures address { P.address result.now ≡ self.now.helm.outside.address }
        ensures most { P.most result.now ≡ self.now.helm.outside.most }
    {
        &self.helm.port
    }

    /// Its clock.
    pub fn clock(&self) -> &C
        ensures { C.readings result.now ≡ self.now.helm.outside.readings }
    {
        &self.helm.clock
    }

    /// How many records and requests were left out for want of memory; at 2^64 - 1 it stays.
    pub fn left(&self) -> u64
        ensures { result ≡ self.now.helm.left }
    {
        self.helm.left
    }

    /// Makes it ready for a session that begins with this record: takes room for its keys, and a copy
    /// of the record's rules. After want of memory it is as it was.
    pub fn ready(&mut self, latest: &Record) -> Result<(), AllocError>
        ensures ready { OnOk result (IsReady self.new) }
        ensures taken { OnOk result (self.new ≡ readied_for latest.now self.old) }
        ensures kept { OnErr result (self.new ≡ self.old) }
    {
        let rules = latest.rules.copy()?;
        self.helm.fit()?;
        take_over(&mut self.helm.steering, latest);
        self.basis = Some(Basis {
            rules,
            rate: latest.rate,
        });
        Ok(())
    }

    /// Keeps the time, turn by turn, until its port is closed or a stop stands.
    ///
    /// A turn reads the clock once, does what is due then, and takes from its port; where that gave a
    /// datagram or nothing for a while, it reads the clock again. Each change of what is published is
    /// entered as a record of the next number, unless memory is wanting for it. The number of this
    /// pilot is `who`, which its own stops name.
    pub fn fly<R: Wait>(
        &mut self,
        rt: &R,
        keys: &KeyTable,
        door: &Turnstile<Book>,
        seat: &mut Seat<Book>,
        who: u32,
    ) -> FlightEnd
        requires own { seat.old.door ≡ door.now }
        requires most { MAX_REQUEST_LEN ≤ self.old.helm.outside.most }
        requires ready { IsReady self.old }
        ensures flew { (opening : ServerState) → seat.old.opening ≡ Some opening
            → Flies opening keys.now self.old.basis who result
            self.old.helm seat.old self.new.helm seat.new }
        ensures stood { IsSome seat.old.opening
            → (stop : Stop) → result ≡ FlightEnd.Ended stop → stop_in seat.new.front ≡ Some stop }
        ensures closed { result ≡ FlightEnd.Closed → IsTrue self.new.helm.outside.closed }
        ensures stays { Stays self.old.helm seat.old self.new.helm seat.new }
        ensures basis_kept { self.new.basis ≡ self.old.basis }
        ensures ready { IsReady self.new }
    {
        let Some(basis) = &self.basis else {
            unreachable!()
        };
        self.helm.fly(rt, basis, keys, door, seat, who)
    }
}

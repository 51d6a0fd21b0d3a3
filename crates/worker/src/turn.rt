ghost use Rattle.std.specs.Prelude.{◌≡◌, ◌≢◌, ◌≤◌, ◌<◌, ℕ, Some, None, IsSome, IfSome, IsTrue, OnOk, length};
ghost use Rattle.edge_traits.specs.Ports.{IsPortKept};
ghost use Rattle.edge_traits.specs.Told.{Rose};
ghost use Rattle.server_core.specs.declared.op.Stop.{Stop};
ghost use Rattle.server_core.specs.States.{ServerState, stop_in};
ghost use Rattle.shared_book.specs.declared.common.Common.{Common};
ghost use Rattle.shared_book.specs.Entries.{IsSameSeat};
ghost use Rattle.worker.specs.declared.act.TheConstants.{MAX_ACTS};
ghost use Rattle.worker.specs.declared.turn.Turn.{Turn};
ghost use Rattle.worker.specs.Doings.{Did, doing_of};
ghost use Rattle.worker.specs.Turns.{ActsBy, IsActBy, MayLackSweeps, is_dropped};

use crate::act::{Act, ActKind, MAX_ACTS};
use crate::serving::serve;
use crate::sweeping::sweep;
use crate::worker::Worker;
use edge_traits::{Clock, Gate, Port, PortFault, Taken};
use server_core::{Book, Stop, Why};
use shared_book::{Common, Unentered, stop};
use std::alloc::AllocError;
use std::sync::Wait;
use turnstile::{Seat, Turnstile};

/// How a turn of a worker ended.
#[derive(Clone, Copy, Debug, PartialEq, Eq)]
pub enum Turn {
    /// An answer was given whole.
    Answered,
    /// A datagram has no answer.
    Silent,
    /// A give of an answer failed.
    SendFailed,
    /// Memory was wanting.
    Dropped,
    /// Nothing came for a while, and old rows of the client list went.
    Swept,
    /// Nothing will come any more.
    Closed,
    /// This stop stands.
    Ended(Stop),
}

impl<P: Port, C: Clock> Worker<P, C> {
    /// Answers the datagram that it carries, or else the next one that its port gives. Where a stop
    /// ends the turn, the datagram is carried on.
    pub fn turn<R: Wait, G: Gate>(
        &mut self,
        rt: &R,
        common: &Common,
        door: &Turnstile<Book>,
        seat: &mut Seat<Book>,
        gate: &G,
    ) -> Turn
        requires own { seat.old.door ≡ door.now }
        requires opened { IsSome seat.old.opening }
        requires most { 1024 ≤ P.most self.old.port }
        ensures did { (opening : ServerState) → seat.old.opening ≡ Some opening
            → (lacking : ℕ) × MayLackSweeps result lacking
            × Did common.now opening seat.new.front lacking
            (doing_of P.trace P.faults P.quiets P.address P.most C.readings self.old seat.old)
            (doing_of P.trace P.faults P.quiets P.address P.most C.readings self.new seat.new) }

        // How it ended.
        ensures acts { ActsBy result self.old.acts self.new.acts }
        ensures failed { result ≡ Turn.SendFailed
            → Rose 1 (P.faults self.old.port) (P.faults self.new.port) }
        ensures swept { result ≡ Turn.Swept
            → Rose 1 (P.quiets self.old.port) (P.quiets self.new.port) }
        ensures closed { result ≡ Turn.Closed → IsTrue (P.is_closed self.new.port) }
        ensures closed_empty { result ≡ Turn.Closed → self.new.carry ≡ None }
        ensures stands { (stood : Stop) → result ≡ Turn.Ended stood
            → stop_in seat.new.front ≡ Some stood }

        // What stays.
        ensures who { self.new.who ≡ self.old.who }
        ensures kept { IsPortKept P.faults P.quiets P.address P.most self.old.port self.new.port }
        ensures same_seat { IsSameSeat seat.old seat.new }
    {
        if self.acts.len() >= MAX_ACTS {
            let asked = Stop {
                who: self.desk.who,
                why: Why::Acts,
            };
            return Turn::Ended(stop(rt, door, seat, asked));
        }
        match self.make_room() {
            Err(_) => Turn::Dropped,
            Ok(()) => self.take_turn(rt, common, door, seat, gate),
        }
    }

    /// Takes the room for one act more.
    fn make_room(&mut self) -> Result<(), AllocError>
        ensures kept { self.new ≡ record self.old { room = self.new.room } }
        ensures room { OnOk result (length self.new.acts < self.new.room) }
    {
        self.acts.reserve(1)
    }

    /// The same turn once there is room for one act more.
    fn take_turn<R: Wait, G: Gate>(
        &mut self,
        rt: &R,
        common: &Common,
        door: &Turnstile<Book>,
        seat: &mut Seat<Book>,
        gate: &G,
    ) -> Turn
        requires own { seat.old.door ≡ door.now }
        requires opened { IsSome seat.old.opening }
        requires most { 1024 ≤ P.most self.old.port }
        requires few { length self.old.acts < MAX_ACTS }
        requires room { length self.old.acts < self.old.room }
        ensures did { (opening : ServerState) → seat.old.opening ≡ Some opening
            → (lacking : ℕ) × MayLackSweeps result lacking
            × Did common.now opening seat.new.front lacking
            (doing_of P.trace P.faults P.quiets P.address P.most C.readings self.old seat.old)
            (doing_of P.trace P.faults P.quiets P.address P.most C.readings self.new seat.new) }
        ensures acts { ActsBy result self.old.acts self.new.acts }
        ensures failed { result ≡ Turn.SendFailed
            → Rose 1 (P.faults self.old.port) (P.faults self.new.port) }
        ensures swept { result ≡ Turn.Swept
            → Rose 1 (P.quiets self.old.port) (P.quiets self.new.port) }
        ensures closed { result ≡ Turn.Closed → IsTrue (P.is_closed self.new.port) }
        ensures closed_empty { result ≡ Turn.Closed → self.new.carry ≡ None }
        ensures stands { (stood : Stop) → result ≡ Turn.Ended stood
            → stop_in seat.new.front ≡ Some stood }
        ensures who { self.new.who ≡ self.old.who }
        ensures kept { IsPortKept P.faults P.quiets P.address P.most self.old.port self.new.port }
        ensures same_seat { IsSameSeat seat.old seat.new }
    {
        if self.is_carrying {
            return self.serve_carried(rt, common, door, seat, gate);
        }
        match self.receive(rt, door, seat) {
            Some(turn) => turn,
            None => self.serve_carried(rt, common, door, seat, gate),
        }
    }

    /// Takes from the port: None where a datagram is now carried, or else how the turn ended.
    fn receive<R: Wait>(
        &mut self,
        rt: &R,
        door: &Turnstile<Book>,
        seat: &mut Seat<Book>,
    ) -> Option<Turn>
        requires own { seat.old.door ≡ door.now }
        requires opened { IsSome seat.old.opening }
        requires empty { self.old.carry ≡ None }
        ensures held { (common : Common) (opening : ServerState) → seat.old.opening ≡ Some opening
            → result ≡ None → Did common opening seat.new.front 0
            (doing_of P.trace P.faults P.quiets P.address P.most C.readings self.old seat.old)
            (doing_of P.trace P.faults P.quiets P.address P.most C.readings self.new seat.new) }
        ensures carried { result ≡ None → IsSome self.new.carry }
        ensures ended { (common : Common) (opening : ServerState) → seat.old.opening ≡ Some opening
            → IfSome result (λ turn. (lacking : ℕ) × MayLackSweeps turn lacking
            × Did common opening seat.new.front lacking
            (doing_of P.trace P.faults P.quiets P.address P.most C.readings self.old seat.old)
            (doing_of P.trace P.faults P.quiets P.address P.most C.readings self.new seat.new)) }
        ensures by { IfSome result (λ turn. ActsBy turn self.old.acts self.new.acts) }
        ensures failed { result ≢ Some Turn.SendFailed }
        ensures swept { result ≡ Some Turn.Swept
            → Rose 1 (P.quiets self.old.port) (P.quiets self.new.port) }
        ensures closed { result ≡ Some Turn.Closed → IsTrue (P.is_closed self.new.port) }
        ensures closed_empty { result ≡ Some Turn.Closed → self.new.carry ≡ None }
        ensures stands { (stood : Stop) → result ≡ Some (Turn.Ended stood)
            → stop_in seat.new.front ≡ Some stood }
        ensures acts { self.new.acts ≡ self.old.acts }
        ensures room { self.new.room ≡ self.old.room }
        ensures who { self.new.who ≡ self.old.who }
        ensures kept { IsPortKept P.faults P.quiets P.address P.most self.old.port self.new.port }
        ensures same_seat { IsSameSeat seat.old seat.new }
    {
        match self.desk.port.take(&mut self.held.bytes) {
            Ok(Taken::Datagram(from)) => {
                self.held.from = from;
                self.is_carrying = true;
                None
            }
            Ok(Taken::Quiet) => match sweep(rt, &mut self.desk.clock, door, seat, self.desk.who) {
                Ok(_) => return Some(Turn::Swept),
                Err(Unentered::Ended(stop)) => return Some(Turn::Ended(stop)),
                Err(Unentered::NoMemory) => return Some(Turn::Dropped),
            },
            Ok(Taken::Closed) => Some(Turn::Closed),
            Err(PortFault::Failed) => {
                let asked = Stop {
                    who: self.desk.who,
                    why: Why::PortFault,
                };
                Some(Turn::Ended(stop(rt, door, seat, asked)))
            }
            Err(PortFault::NoMemory) => Some(Turn::Dropped),
        }
    }

    /// Answers the datagram that it carries.
    fn serve_carried<R: Wait, G: Gate>(
        &mut self,
        rt: &R,
        common: &Common,
        door: &Turnstile<Book>,
        seat: &mut Seat<Book>,
        gate: &G,
    ) -> Turn
        requires own { seat.old.door ≡ door.now }
        requires opened { IsSome seat.old.opening }
        requires most { 1024 ≤ P.most self.old.port }
        requires carrying { IsSome self.old.carry }
        requires few { length self.old.acts < MAX_ACTS }
        requires room { length self.old.acts < self.old.room }
        ensures did { (opening : ServerState) → seat.old.opening ≡ Some opening
            → Did common.now opening seat.new.front 0
            (doing_of P.trace P.faults P.quiets P.address P.most C.readings self.old seat.old)
            (doing_of P.trace P.faults P.quiets P.address P.most C.readings self.new seat.new) }
        ensures acts { ActsBy result self.old.acts self.new.acts }
        ensures failed { result ≡ Turn.SendFailed
            → Rose 1 (P.faults self.old.port) (P.faults self.new.port) }
        ensures swept { result ≢ Turn.Swept }
        ensures closed { result ≢ Turn.Closed }
        ensures stands { (stood : Stop) → result ≡ Turn.Ended stood
            → stop_in seat.new.front ≡ Some stood }
        ensures who { self.new.who ≡ self.old.who }
        ensures kept { IsPortKept P.faults P.quiets P.address P.most self.old.port self.new.port }
        ensures same_seat { IsSameSeat seat.old seat.new }
    {
        let number = self.acts.len() as u64;
        let held = &mut self.held;
        match serve(rt, &mut self.desk, common, door, seat, gate, number, held) {
            Err(stop) => Turn::Ended(stop),
            Ok(act) => {
                self.acts.push_reserved(act);
                self.is_carrying = false;
                turn_of(&act)
            }
        }
    }
}

/// How a turn ended that had this act.
fn turn_of(act: &Act) -> Turn
    ensures { IsActBy result act.now }
{
    if is_dropped(&act.kind) {
        return Turn::Dropped;
    }
    if act.failed {
        return Turn::SendFailed;
    }
    if act.given == 0 {
        return Turn::Silent;
    }
    Turn::Answered
}

/// Whether memory was wanting.
fn is_dropped(kind: &ActKind) -> bool
    ensures { result ≡ is_dropped kind.now }
{
    match kind {
        ActKind::Dropped(_) => true,
        ActKind::Time { .. } => false,
        ActKind::Control { .. } => false,
        ActKind::Read { .. } => false,
        ActKind::Silent(_) => false,
    }
}

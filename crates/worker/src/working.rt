ghost use Rattle.std.specs.Prelude.{◌≡◌, ◌≤◌, ℕ, Some, None, IsSome, IfSome, IsTrue};
ghost use Rattle.edge_traits.specs.Ports.{IsPortKept};
ghost use Rattle.server_core.specs.declared.op.Stop.{Stop};
ghost use Rattle.server_core.specs.States.{ServerState, stop_in};
ghost use Rattle.shared_book.specs.Entries.{IsSameSeat};
ghost use Rattle.worker.specs.declared.working.WorkEnd.{WorkEnd};
ghost use Rattle.worker.specs.declared.turn.Turn.{Turn};
ghost use Rattle.worker.specs.Doings.{Did, doing_of};
ghost use Rattle.worker.specs.Turns.{MayLackAtEnd, MayLackSweeps};

use crate::turn::Turn;
use crate::worker::Worker;
use edge_traits::{Clock, Gate, Port};
use server_core::{Book, Stop};
use shared_book::Common;
use std::sync::Wait;
use turnstile::{Seat, Turnstile};

/// How the work of a session ended.
#[derive(Clone, Copy, Debug, PartialEq, Eq)]
pub enum WorkEnd {
    /// Nothing will come any more.
    Closed,
    /// This stop stands.
    Ended(Stop),
}

impl<P: Port, C: Clock> Worker<P, C> {
    /// Answers datagrams until nothing will come any more, or the server is stopped.
    pub fn work<R: Wait, G: Gate>(
        &mut self,
        rt: &R,
        common: &Common,
        door: &Turnstile<Book>,
        seat: &mut Seat<Book>,
        gate: &G,
    ) -> WorkEnd
        requires own { seat.old.door ≡ door.now }
        requires opened { IsSome seat.old.opening }
        requires most { 1024 ≤ P.most self.old.port }
        ensures did { (opening : ServerState) → seat.old.opening ≡ Some opening
            → (lacking : ℕ) × MayLackAtEnd result lacking
            × Did common.now opening seat.new.front lacking
            (doing_of P.trace P.faults P.quiets P.address P.most C.readings self.old seat.old)
            (doing_of P.trace P.faults P.quiets P.address P.most C.readings self.new seat.new) }

        // How it ended.
        ensures closed { result ≡ WorkEnd.Closed → IsTrue (P.is_closed self.new.port) }
        ensures closed_empty { result ≡ WorkEnd.Closed → self.new.carry ≡ None }
        ensures stands { (stood : Stop) → result ≡ WorkEnd.Ended stood
            → stop_in seat.new.front ≡ Some stood }

        // What stays.
        ensures who { self.new.who ≡ self.old.who }
        ensures kept { IsPortKept P.faults P.quiets P.address P.most self.old.port self.new.port }
        ensures same_seat { IsSameSeat seat.old seat.new }
    {
        'turns: for _ in rt.forever() {
            let turn = self.turn(rt, common, door, seat, gate);
            if let Some(end) = end_of(turn) {
                return end;
            }
        }
        unreachable!()
    }
}

/// How the work ends with a turn that ended so: None where it goes on.
fn end_of(turn: Turn) -> Option<WorkEnd>
    ensures goes_on { result ≡ None → (lacking : ℕ) → MayLackSweeps turn lacking → lacking ≡ 0 }
    ensures lacking { IfSome result (λ end. (lacking : ℕ) → MayLackSweeps turn lacking
        → MayLackAtEnd end lacking) }
    ensures closed { result ≡ Some WorkEnd.Closed → turn ≡ Turn.Closed }
    ensures ended { (stood : Stop) → result ≡ Some (WorkEnd.Ended stood)
        → turn ≡ Turn.Ended stood }
{
    match turn {
        Turn::Closed => Some(WorkEnd::Closed),
        Turn::Ended(stop) => Some(WorkEnd::Ended(stop)),
        Turn::Answered => None,
        Turn::Silent => None,
        Turn::SendFailed => None,
        Turn::Dropped => None,
        Turn::Swept => None,
    }
}

ghost use Rattle.std.specs.Prelude.{◌≡◌, ◌∷◌, [], ℕ, Option, None, Some, IfSome, IsSome};
ghost use Rattle.server_core.specs.States.{ServerState, stop_in};
ghost use Rattle.shared_book.specs.Entries.{IsSameSeat};
ghost use Rattle.pilot.specs.Calls.{Called, Calls, IsPilots, stop_entries, stop_met};

use server_core::{Book, Op, Reply, Stop, Why};
use shared_book::{Unentered, enter_or_stop, stop};
use std::sync::Wait;
use turnstile::{Seat, Turnstile};

/// Enters one of a pilot's operations into the one history, or answers the stop that stands. No such
/// operation wants memory.
pub(crate) fn call<R: Wait>(
    rt: &R,
    door: &Turnstile<Book>,
    seat: &mut Seat<Book>,
    who: u32,
    op: Op,
) -> Option<Stop>
    requires own { seat.old.door ≡ door.now }
    requires pilots { IsPilots op }
    ensures called { (opening : ServerState) → seat.old.opening ≡ Some opening
        → Calls opening who op result seat.old seat.new }
    ensures stood { IsSome seat.old.opening
        → IfSome result (λ stop. stop_in seat.new.front ≡ Some stop) }
    ensures kept { IsSameSeat seat.old seat.new }
{
    stop_met(enter_or_stop(rt, door, seat, who, op))
}

/// The stop that was met by a call that was answered so.
fn stop_met(called: Result<(u64, Reply), Unentered>) -> Option<Stop>
    ensures { result ≡ stop_met called }
{
    match called {
        Err(Unentered::Ended(stood)) => Some(stood),
        Ok(_) | Err(Unentered::NoMemory) => None,
    }
}

/// Stops the server since the port failed: the stop that then stands.
pub(crate) fn stop_for_fault<R: Wait>(
    rt: &R,
    door: &Turnstile<Book>,
    seat: &mut Seat<Book>,
    who: u32,
) -> Stop
    requires own { seat.old.door ≡ door.now }
    ensures called { (opening : ServerState) → seat.old.opening ≡ Some opening
        → (made : Option ℕ) × Called opening who (stop_entries made result)
        (record { asked = None; made = made; stop = result } ∷ []) seat.old seat.new }
    ensures stood { IsSome seat.old.opening → stop_in seat.new.front ≡ Some result }
    ensures kept { IsSameSeat seat.old seat.new }
{
    let asked = Stop {
        who,
        why: Why::PortFault,
    };
    stop(rt, door, seat, asked)
}

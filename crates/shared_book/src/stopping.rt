ghost use Rattle.std.specs.Prelude.{◌≡◌, Some, Err, IfOk, IsSome};
ghost use Rattle.server_core.specs.declared.step.StepFault.{StepFault};
ghost use Rattle.server_core.specs.declared.op.Stop.{Stop};
ghost use Rattle.shared_book.specs.declared.stopping.Unentered.{Unentered};
ghost use Rattle.server_core.specs.States.{ServerState, stop_in};
ghost use Rattle.shared_book.specs.Entries.{IsEntered, IsSameSeat, IsUnentered};
ghost use Rattle.shared_book.specs.Stops.{EndsBy, IsEnded, IsStopped};

use crate::entering::enter;
use server_core::{Book, Op, Reply, StepFault, Stop, Why};
use std::sync::Wait;
use turnstile::{Seat, Turnstile};

/// Why an operation was not entered.
#[derive(Clone, Copy, Debug, PartialEq, Eq)]
pub enum Unentered {
    /// This stop stands.
    Ended(Stop),
    /// Memory was wanting.
    NoMemory,
}

/// Stops the server so, where it was not stopped before: the stop that then stands.
pub fn stop<R: Wait>(rt: &R, door: &Turnstile<Book>, seat: &mut Seat<Book>, asked: Stop) -> Stop
    requires own { seat.old.door ≡ door.now }
    ensures stopped { (opening : ServerState) → seat.old.opening ≡ Some opening
        → IsStopped opening seat.old asked result seat.new }
    ensures stands { (opening : ServerState) → seat.old.opening ≡ Some opening
        → stop_in seat.new.front ≡ Some result }
    ensures kept { IsSameSeat seat.old seat.new }
{
    match enter(rt, door, seat, Op::Stop(asked)) {
        Ok(_) => return asked,
        Err(fault) => return stop_met(fault, asked),
    }
}

/// The stop that a refused one met. No other fault keeps a stop from being entered.
fn stop_met(fault: StepFault, asked: Stop) -> Stop
    ensures { (stood : Stop) → fault ≡ StepFault.Ended stood → result ≡ stood }
{
    match fault {
        StepFault::Ended(stood) => stood,
        StepFault::Full(_) | StepFault::ClockEnd | StepFault::NoMemory => asked,
    }
}

/// Enters an operation into the one history. Where it meets a limit of the server, the caller, whose
/// number is `who`, stops the server for it.
pub fn enter_or_stop<R: Wait>(
    rt: &R,
    door: &Turnstile<Book>,
    seat: &mut Seat<Book>,
    who: u32,
    op: Op,
) -> Result<(u64, Reply), Unentered>
    requires own { seat.old.door ≡ door.now }
    ensures entered { (opening : ServerState) → seat.old.opening ≡ Some opening
        → IfOk result (λ entry. IsEntered opening seat.old op entry.0 entry.1 seat.new) }
    ensures ended { (opening : ServerState) (stood : Stop) → seat.old.opening ≡ Some opening
        → result ≡ Err (Unentered.Ended stood)
        → IsEnded opening who seat.old op stood seat.new }
    ensures stands { (opening : ServerState) (stood : Stop) → seat.old.opening ≡ Some opening
        → result ≡ Err (Unentered.Ended stood) → stop_in seat.new.front ≡ Some stood }
    ensures lacking { (opening : ServerState) → seat.old.opening ≡ Some opening
        → result ≡ Err Unentered.NoMemory
        → IsUnentered opening seat.old op StepFault.NoMemory seat.new }
    ensures kept { IsSameSeat seat.old seat.new }
{
    match enter(rt, door, seat, op) {
        Ok(entry) => Ok(entry),
        Err(StepFault::Ended(stood)) => Err(Unentered::Ended(stood)),
        Err(StepFault::Full(why)) => Err(Unentered::Ended(stop(rt, door, seat, Stop { who, why }))),
        Err(StepFault::ClockEnd) => {
            let asked = Stop {
                who,
                why: Why::ClockEnd,
            };
            Err(Unentered::Ended(stop(rt, door, seat, asked)))
        }
        Err(StepFault::NoMemory) => Err(Unentered::NoMemory),
    }
}

ghost use Rattle.std.specs.Prelude.{◌≡◌, Some, IfOk, IfErr};
ghost use Rattle.server_core.specs.States.{ServerState};
ghost use Rattle.shared_book.specs.Entries.{IsEntered, IsSameSeat, IsUnentered};

use server_core::{Book, Op, Reply, StepFault};
use std::sync::Wait;
use turnstile::{Seat, Turnstile};

/// Enters an operation into the one history, once it is this seat's turn: its place there, counted
/// from 0, and its reply. What is refused has no entry.
pub fn enter<R: Wait>(
    rt: &R,
    door: &Turnstile<Book>,
    seat: &mut Seat<Book>,
    op: Op,
) -> Result<(u64, Reply), StepFault>
    requires own { seat.old.door ≡ door.now }
    ensures entered { (opening : ServerState) → seat.old.opening ≡ Some opening
        → IfOk result (λ entry. IsEntered opening seat.old op entry.0 entry.1 seat.new) }
    ensures refused { (opening : ServerState) → seat.old.opening ≡ Some opening
        → IfErr result (λ fault. IsUnentered opening seat.old op fault seat.new) }
    ensures kept { IsSameSeat seat.old seat.new }
{
    match door.call(rt, seat, op) {
        Ok(entry) => Ok(entry),
        Err((_place, fault)) => Err(fault),
    }
}

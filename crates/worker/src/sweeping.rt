ghost use Rattle.std.specs.Prelude.{◌≡◌, ◌≢◌, ℕ, [], ◌∷◌, Some, IsSome, Err, IfOk};
ghost use Rattle.shared_book.specs.declared.stopping.Unentered.{Unentered};
ghost use Rattle.edge_traits.specs.Told.{Grows};
ghost use Rattle.server_core.specs.declared.op.Op.{Op};
ghost use Rattle.server_core.specs.declared.op.Stop.{Stop};
ghost use Rattle.server_core.specs.States.{ServerState, stop_in};
ghost use Rattle.shared_book.specs.Entries.{IsEntered, IsSameSeat};
ghost use Rattle.shared_book.specs.Stops.{IsEnded};

use edge_traits::Clock;
use server_core::{Book, Op, Reply};
use shared_book::{Unentered, enter_or_stop};
use std::sync::Wait;
use turnstile::{Seat, Turnstile};

/// Old rows of the client list go, as of now.
pub(crate) fn sweep<R: Wait, C: Clock>(
    rt: &R,
    clock: &mut C,
    door: &Turnstile<Book>,
    seat: &mut Seat<Book>,
    who: u32,
) -> Result<(u64, Reply), Unentered>
    requires own { seat.old.door ≡ door.now }
    requires opened { IsSome seat.old.opening }
    ensures swept { (opening : ServerState) → seat.old.opening ≡ Some opening
        → IfOk result (λ entry. (moment : ℕ)
        × IsEntered opening seat.old (Op.Sweep moment) entry.0 entry.1 seat.new
        × Grows (C.readings clock.old) (C.readings clock.new) (moment ∷ [])) }
    ensures ended { (opening : ServerState) (stood : Stop) → seat.old.opening ≡ Some opening
        → result ≡ Err (Unentered.Ended stood)
        → (moment : ℕ) × IsEnded opening who seat.old (Op.Sweep moment) stood seat.new
        × Grows (C.readings clock.old) (C.readings clock.new) (moment ∷ []) }
    ensures memory { result ≢ Err Unentered.NoMemory }
    ensures stands { (stood : Stop) → result ≡ Err (Unentered.Ended stood)
        → stop_in seat.new.front ≡ Some stood }
    ensures same_seat { IsSameSeat seat.old seat.new }
{
    let now = clock.now();
    enter_or_stop(rt, door, seat, who, Op::Sweep(now))
}

ghost use Rattle.std.specs.Prelude.{◌≡◌, ◌<◌, IfOk};
ghost use Rattle.std.specs.List.{AllByRecursion};
ghost use Rattle.drawn_link.specs.Arrivals.{ask_of, IsAmidst};
ghost use Rattle.draws.specs.declared.clients.TheConstants.{CLIENTS};

use draws::{CLIENTS, Draws, client_addr};
use fixed_time::Ntp64;
use mac_keys::Auth;
use server_core::{Ask, Op};
use std::alloc::{AllocError, Global};

/// What the client of this number asks.
pub(crate) fn ask_of(number: u64) -> Ask
    requires { number < CLIENTS }
    ensures { result ≡ ask_of number }
{
    Ask {
        from: client_addr(number),
        version: 4,
        poll: 6,
        transmit: Ntp64(0),
        auth: Auth::Absent,
    }
}

/// What is drawn to happen at a server at this moment before a request comes: up to seven requests for
/// the time, and then maybe a sweep.
pub(crate) fn drawn_ops(
    alloc: Global,
    draws: &mut Draws,
    moment: u64,
) -> Result<Vec<Op>, AllocError>
    ensures { IfOk result (λ ops. AllByRecursion IsAmidst ops.items) }
{
    let mut ops = Vec::new(alloc);
    let arrivals = draws.below(8);
    for _ in 0..arrivals {
        let number = draws.below(CLIENTS);
        ops.push(Op::Arrive(ask_of(number), moment))?;
    }
    if draws.below(16) == 0 {
        ops.push(Op::Sweep(moment))?;
    }
    Ok(ops)
}

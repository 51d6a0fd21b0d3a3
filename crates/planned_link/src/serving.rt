ghost use Rattle.std.specs.Prelude.{◌≡◌, ◌≢◌, ◌⊎◌, ◌≤◌, ◌++◌, ℕ, List, IfOk, OnOk, OnErr};
ghost use Rattle.server_core.specs.declared.step.StepFault.{StepFault};
ghost use Rattle.planned_link.specs.declared.queued.Queued.{Queued};
ghost use Rattle.planned_link.specs.Services.{AreServices, IsBrought, IsServed, IsService, parts_of};

use crate::answering::{append, grams_of, place_of};
use crate::deed::Ops;
use crate::queued::Queued;
use mac_keys::KeyTable;
use net_addr::Addr;
use server_core::{Book, StepFault, perform, respond};
use std::alloc::{AllocError, Global};
use sys_vars::Context;

/// A datagram on its way to a server.
#[derive(Clone, Copy)]
pub(crate) struct Delivery<'a> {
    /// The keys that the server knows.
    pub(crate) keys: &'a KeyTable,
    /// What the server knows of the moment.
    pub(crate) context: Context,
    /// Who sent it.
    pub(crate) from: Addr,
    /// The server's address.
    pub(crate) to: Addr,
    pub(crate) octets: &'a [u8],
}

/// Has a server take these operations and then a datagram so many times, and answers the datagrams of
/// its responses, in their order.
pub(crate) fn serve(
    alloc: Global,
    book: &mut Book,
    ops: Ops,
    times: u8,
    delivery: &Delivery<'_>,
) -> Result<Vec<Queued>, AllocError>
    ensures served { IfOk result (λ answers. IsServed ops times
        (parts_of delivery.now)
        book.old answers.items book.new) }
    ensures brought { OnErr result (IsBrought ops times
        (parts_of delivery.now)
        book.old book.new) }
{
    let _replies = perform(alloc, book, ops.into_vec())?;
    serve_times(alloc, book, times, delivery)
}

/// Has a server take a datagram so many times.
fn serve_times(
    alloc: Global,
    book: &mut Book,
    times: u8,
    delivery: &Delivery<'_>,
) -> Result<Vec<Queued>, AllocError>
    ensures served { IfOk result (λ answers. AreServices times
        (parts_of delivery.now)
        book.old answers.items book.new) }
    ensures brought { OnErr result ((k : ℕ) × (k ≤ times) × (answers : List Queued)
        × AreServices k
        (parts_of delivery.now)
        book.old answers book.new) }
{
    let mut answers = Vec::new(alloc);
    for _ in 0..times {
        serve_once(alloc, book, delivery, &mut answers)?;
    }
    Ok(answers)
}

/// Has a server take a datagram, and appends the datagrams of its response.
fn serve_once(
    alloc: Global,
    book: &mut Book,
    delivery: &Delivery<'_>,
    answers: &mut Vec<Queued>,
) -> Result<(), AllocError>
    ensures served { OnOk result ((more : List Queued)
        × IsService
        (parts_of delivery.now)
        book.old more book.new
        × (answers.new.items ≡ answers.old.items ++ more)) }
    ensures brought { OnErr result ((book.new ≡ book.old)
        ⊎ ((more : List Queued) × IsService
        (parts_of delivery.now)
        book.old more book.new)) }
{
    let number = book.journal().len();
    let Delivery {
        keys,
        context,
        from,
        to,
        octets,
    } = delivery;
    match respond(alloc, book, keys, context, from, octets) {
        Ok(response) => {
            let place = place_of(number, &response);
            let grams = grams_of(alloc, keys, context, response)?;
            append(answers, to, &grams, place)
        }
        Err(fault) => pass_over(fault),
    }
}

/// Passes over a refusal, and answers want of memory.
fn pass_over(fault: StepFault) -> Result<(), AllocError>
    ensures { OnOk result (fault ≢ StepFault.NoMemory) }
{
    match fault {
        StepFault::NoMemory => Err(AllocError),
        StepFault::Ended(_) | StepFault::Full(_) | StepFault::ClockEnd => Ok(()),
    }
}

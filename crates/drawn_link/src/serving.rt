ghost use Rattle.std.specs.Prelude.{◌≡◌, ◌≢◌, false, [], IfOk, OnOk};
ghost use Rattle.drawn_link.specs.Services.{AreServices, IsAsking, IsServedOnce, Runs};
ghost use Rattle.server_core.specs.declared.step.StepFault.{StepFault};
ghost use Rattle.shared_book.specs.Contexts.{context_at};
ghost use Rattle.worker.specs.declared.act.ActKind.{ActKind};

use crate::answering::grams_of;
use crate::kinds::kind_by;
use edge_traits::Grams;
use net_addr::Addr;
use server_core::{Book, Call, Op, Request, StepFault, Unheard, call_of, classify, response_to};
use shared_book::{Common, context_at};
use std::alloc::{AllocError, Global};
use sys_vars::Context;
use worker::{Act, ActKind};

/// A datagram on its way to a server.
#[derive(Clone, Copy)]
pub(crate) struct Visit<'a> {
    /// What the parts of the server know.
    pub(crate) common: &'a Common,
    /// When it comes.
    pub(crate) moment: u64,
    /// Who sent it.
    pub(crate) from: Addr,
    pub(crate) octets: &'a [u8],
}

/// What a server did about a datagram: its act, and all of its answer.
#[derive(Drop)]
pub(crate) struct Service {
    pub(crate) act: Act,
    pub(crate) grams: Grams,
}

/// Has a server take a datagram so many times; what it refuses is passed over.
pub(crate) fn serve(
    alloc: Global,
    book: &mut Book,
    visit: &Visit<'_>,
    times: u8,
) -> Result<Vec<Service>, AllocError>
    ensures served { IfOk result (λ services. AreServices visit.now.common.now visit.now.from
        visit.now.octets.now book.old services.items book.new) }
    ensures runs { Runs book.old book.new }
{
    let mut services = Vec::new(alloc);
    for _ in 0..times {
        serve_once(alloc, book, visit, &mut services)?;
    }
    Ok(services)
}

/// Has a server take a datagram.
fn serve_once(
    alloc: Global,
    book: &mut Book,
    visit: &Visit<'_>,
    services: &mut Vec<Service>,
) -> Result<(), AllocError>
    ensures served { OnOk result (IsServedOnce visit.now.common.now visit.now.from
        visit.now.octets.now book.old services.old.items services.new.items book.new) }
    ensures runs { Runs book.old book.new }
{
    let context = context_at(visit.common, visit.moment);
    let keys = &visit.common.keys;
    let class = classify(alloc, visit.octets, &visit.from, keys, &context)?;
    match call_of(class, &context) {
        Err(why) => {
            services.push(unheard(alloc, visit, why))?;
            Ok(())
        }
        Ok(Call { op, request }) => enter(alloc, book, visit, &context, op, request, services),
    }
}

/// What becomes of a datagram that is not heard.
fn unheard(alloc: Global, visit: &Visit<'_>, why: Unheard) -> Service
    ensures act { result.act ≡ record {
      from = visit.now.from;
      moment = visit.now.moment;
      kind = ActKind.Silent why;
      given = 0;
      failed = false;
    } }
    ensures grams { result.grams ≡ [] }
{
    Service {
        act: Act {
            from: visit.from,
            moment: visit.moment,
            kind: ActKind::Silent(why),
            given: 0,
            failed: false,
        },
        grams: Grams::of(Vec::new(alloc)),
    }
}

/// Has a server take the operation of a datagram, whose response is made of this request.
fn enter(
    alloc: Global,
    book: &mut Book,
    visit: &Visit<'_>,
    context: &Context,
    op: Op,
    request: Request,
    services: &mut Vec<Service>,
) -> Result<(), AllocError>
    requires context { context.now ≡ context_at visit.now.common.now visit.now.moment }
    requires asked { IsAsking visit.now.common.now visit.now.from visit.now.octets.now
        context.now op request }
    ensures served { OnOk result (IsServedOnce visit.now.common.now visit.now.from
        visit.now.octets.now book.old services.old.items services.new.items book.new) }
    ensures runs { Runs book.old book.new }
{
    let place = book.journal().len() as u64;
    match book.step(op) {
        Ok(reply) => {
            let kind = kind_by(place, visit.moment, &reply);
            let response = response_to(request, reply);
            let grams = grams_of(alloc, &visit.common.keys, context, response)?;
            let act = Act {
                from: visit.from,
                moment: visit.moment,
                kind,
                given: grams.len() as u64,
                failed: false,
            };
            services.push(Service { act, grams })?;
            Ok(())
        }
        Err(fault) => pass_over(fault),
    }
}

/// Passes over a refusal, and answers want of memory.
fn pass_over(fault: StepFault) -> Result<(), AllocError>
    ensures { OnOk result (fault ≢ StepFault.NoMemory) }
{
    match fault {
        StepFault::NoMemory => Err(AllocError),
        StepFault::Ended(_) | StepFault::Full(_) | StepFault::ClockEnd => Ok(()),
    }
}

ghost use Rattle.std.specs.Prelude.{◌≡◌, ◌∷◌, ◌++◌, [], IfOk, OnOk};
ghost use Rattle.server_core.specs.Responses.{IsGivable, grams_of};
ghost use Rattle.planned_link.specs.Services.{place_of, queued_as};

use crate::queued::Queued;
use edge_traits::{Grams, Octets};
use mac_keys::KeyTable;
use net_addr::Addr;
use server_core::{ReadReply, Response, rate_reply, read_grams, time_reply};
use std::alloc::{AllocError, Global};
use sys_vars::Context;

/// The datagrams of a response to what came in this context and is answered at once.
pub(crate) fn grams_of(
    alloc: Global,
    keys: &KeyTable,
    context: &Context,
    response: Response,
) -> Result<Grams, AllocError>
    requires { IsGivable keys.now response }
    ensures { IfOk result
        (λ grams. grams ≡ grams_of keys.now context.now context.now.moment response) }
{
    let moment = context.moment;
    match response {
        Response::Silent(_) => Ok(Grams::of(Vec::new(alloc))),
        Response::Time(ask, basis) => one(alloc, time_reply(&basis, &ask, keys, moment, moment)),
        Response::Rate(ask) => one(alloc, rate_reply(&ask)),
        Response::Grams(grams) => Ok(grams),
        Response::Read(from, head, reply) => read_grams(alloc, &reply, &from, &head, context),
    }
}

/// One datagram.
fn one(alloc: Global, gram: Octets) -> Result<Grams, AllocError>
    ensures { IfOk result (λ grams. grams ≡ gram ∷ []) }
{
    let mut grams = Vec::new(alloc);
    grams.push(gram)?;
    Ok(Grams::of(grams))
}

/// The place of the read that a response answers, where this is the number of its operation.
pub(crate) fn place_of(number: usize, response: &Response) -> Option<u64>
    ensures { result ≡ place_of number response.now }
{
    match response {
        Response::Read(_, _, ReadReply::Refused) => Some(number as u64),
        Response::Read(_, _, ReadReply::Page { .. }) => Some(number as u64),
        _ => None,
    }
}

/// Appends these datagrams, which come from this address and answer the read at this place.
pub(crate) fn append(
    answers: &mut Vec<Queued>,
    from: &Addr,
    grams: &Grams,
    place: Option<u64>,
) -> Result<(), AllocError>
    ensures { OnOk result
        (answers.new.items ≡ answers.old.items ++ queued_as from.now place grams.now) }
{
    for i in 0..grams.len() {
        answers.push(Queued {
            from: *from,
            octets: grams.get(i).copy(),
            place,
        })?;
    }
    Ok(())
}

ghost use Rattle.std.specs.Prelude.{◌≡◌, ◌∷◌, [], IfOk};
ghost use Rattle.server_core.specs.Responses.{IsGivable, grams_of};

use edge_traits::{Grams, Octets};
use mac_keys::KeyTable;
use server_core::{Response, rate_reply, read_grams, time_reply};
use std::alloc::{AllocError, Global};
use sys_vars::Context;

/// The datagrams of a response to what came in this context and is answered at once.
pub(crate) fn grams_of(
    alloc: Global,
    keys: &KeyTable,
    context: &Context,
    response: Response,
) -> Result<Grams, AllocError>
    requires { IsGivable keys.now response }
    ensures { IfOk result
        (λ grams. grams ≡ grams_of keys.now context.now context.now.moment response) }
{
    let moment = context.moment;
    match response {
        Response::Silent(_) => Ok(Grams::of(Vec::new(alloc))),
        Response::Time(ask, basis) => one(alloc, time_reply(&basis, &ask, keys, moment, moment)),
        Response::Rate(ask) => one(alloc, rate_reply(&ask)),
        Response::Grams(grams) => Ok(grams),
        Response::Read(from, head, reply) => read_grams(alloc, &reply, &from, &head, context),
    }
}

/// One datagram.
fn one(alloc: Global, gram: Octets) -> Result<Grams, AllocError>
    ensures { IfOk result (λ grams. grams ≡ gram ∷ []) }
{
    let mut grams = Vec::new(alloc);
    grams.push(gram)?;
    Ok(Grams::of(grams))
}

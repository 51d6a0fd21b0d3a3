ghost use Rattle.std.specs.Prelude.{◌≡◌, ◌≢◌, ◌≤◌, ◌+◌, ◌∷◌, [], length, IfOk};
ghost use Rattle.std.specs.List.{AllByRecursion};
ghost use Rattle.server_core.specs.ReadReplies.{IsTellableRead, head_of_page, read_grams};

use crate::read_reply::ReadReply;
use edge_traits::{Grams, Octets};
use mode6_frame::{BAD_NAME, HEAD_LEN, Head, MAX_BODY, PROHIBITED, error_gram};
use mode6_nonce::make;
use mru_read::page_grams;
use net_addr::Addr;
use std::alloc::{AllocError, Global};
use sys_vars::Context;

/// The datagrams of a reply to a read from this address that came in this context, and whose answer
/// repeats this head, in their order (RFC 9327, section 4, command 10). A page has a new nonce for the
/// sender, and the association 0.
pub fn read_grams(
    alloc: Global,
    reply: &ReadReply,
    from: &Addr,
    head: &Head,
    context: &Context,
) -> Result<Grams, AllocError>
    requires { IsTellableRead reply.now }
    ensures value { IfOk result (λ grams. grams
        ≡ read_grams reply.now from.now head.now context.now) }
    ensures some { reply.now ≢ ReadReply.Ignored → IfOk result (λ grams. 1 ≤ length grams) }
    ensures short { IfOk result (AllByRecursion (λ gram. length gram ≤ HEAD_LEN + MAX_BODY)) }
{
    match reply {
        ReadReply::Ignored => Ok(Grams::of(Vec::new(alloc))),
        ReadReply::Prohibited => one(alloc, error_gram(head, PROHIBITED)),
        ReadReply::Refused => one(alloc, error_gram(head, BAD_NAME)),
        ReadReply::Page { status, page } => {
            let nonce = make(&context.salt, &from.ip, context.time());
            let head = head_of_page(head, *status);
            page_grams(alloc, page, &nonce, context.origin, &head)
        }
    }
}

/// What a page repeats of its request, with this status.
fn head_of_page(head: &Head, status: u16) -> Head
    ensures { result ≡ head_of_page head.now status }
{
    Head {
        version: head.version,
        opcode: head.opcode,
        sequence: head.sequence,
        status,
        assoc: 0,
    }
}

/// One datagram.
fn one(alloc: Global, gram: Octets) -> Result<Grams, AllocError>
    requires { length gram ≤ HEAD_LEN + MAX_BODY }
    ensures value { IfOk result (λ grams. grams ≡ gram ∷ []) }
    ensures short { IfOk result (AllByRecursion (λ gram. length gram ≤ HEAD_LEN + MAX_BODY)) }
{
    let mut grams = Vec::new(alloc);
    grams.push(gram)?;
    Ok(Grams::of(grams))
}

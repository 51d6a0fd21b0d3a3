ghost use Rattle.std.specs.Prelude.{◌≡◌, IfOk, reverse};
ghost use Rattle.mode6_frame.specs.Items.{AreNameOctets};
ghost use Rattle.mode6_frame.specs.declared.operations.TheConstants.{OP_READ_MRU};
ghost use Rattle.mru_items.specs.Queries.{IsQuery, named_of, read_of, request_text};
ghost use Rattle.mrulist_reader.specs.Readers.{nonce_request};
ghost use Rattle.ntpq_client.specs.Requests.{IsRequest};

use edge_traits::Text;
use mode6_frame::{OP_READ_MRU, OP_READ_NONCE};
use mru_items::{Nonce, Pair, Query, named_pairs, request_text};
use ntpq_client::{REQUEST_VERSION, Request};
use std::alloc::{AllocError, Global};

/// The request for a nonce.
pub(crate) fn nonce_request(alloc: Global) -> Request
    ensures value { result ≡ nonce_request }
    ensures request { IsRequest result }
{
    Request {
        version: REQUEST_VERSION,
        opcode: OP_READ_NONCE,
        assoc: 0,
        body: Text::of(Vec::new(alloc)),
    }
}

/// The request for the page behind the newest of these clients, oldest first, with this nonce.
pub(crate) fn read_request(
    alloc: Global,
    nonce: &Nonce,
    query: &Query,
    trail: &[Pair],
) -> Result<Request, AllocError>
    requires query { IsQuery query.now }
    requires bare { AreNameOctets nonce.now }
    ensures value { IfOk result (λ request. request ≡ record {
      version = REQUEST_VERSION;
      opcode = OP_READ_MRU;
      assoc = 0;
      body = request_text nonce.now
          (read_of query.now (named_of query.now (reverse trail.now)));
    }) }
    ensures request { IfOk result IsRequest }
{
    let pairs = named_pairs(alloc, query, trail)?;
    let body = request_text(alloc, nonce, query, &pairs)?;
    Ok(Request {
        version: REQUEST_VERSION,
        opcode: OP_READ_MRU,
        assoc: 0,
        body,
    })
}

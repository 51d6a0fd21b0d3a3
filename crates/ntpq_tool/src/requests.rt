ghost use Rattle.std.specs.Prelude.{◌≡◌, ◌≤◌, length, IfOk};
ghost use Rattle.mode6_frame.specs.declared.message.TheConstants.{MAX_BODY};
ghost use Rattle.ntpq_client.specs.Requests.{IsRequest};
ghost use Rattle.ntpq_tool.specs.Scripts.{peer_request, status_request, variables_request};

use edge_traits::Text;
use mode6_frame::{MAX_BODY, OP_READ_STATUS, OP_READ_VARIABLES};
use ntpq_client::{REQUEST_VERSION, Request};
use std::alloc::{AllocError, Global};

/// The variables that the line of a peer shows, joined by commas (our own rule).
pub const PEER_VARIABLES: &[u8] = b"srcadr,refid,stratum,hpoll,reach,delay,offset,jitter";

/// The request for variables of an association, by their names joined by commas.
pub fn variables_request(assoc: u16, names: Text) -> Request
    requires { length names ≤ MAX_BODY }
    ensures value { result ≡ variables_request assoc names }
    ensures request { IsRequest result }
{
    Request {
        version: REQUEST_VERSION,
        opcode: OP_READ_VARIABLES,
        assoc,
        body: names,
    }
}

/// The request for the associations and their status words.
pub fn status_request(alloc: Global) -> Request
    ensures value { result ≡ status_request }
    ensures request { IsRequest result }
{
    Request {
        version: REQUEST_VERSION,
        opcode: OP_READ_STATUS,
        assoc: 0,
        body: Text::of(Vec::new(alloc)),
    }
}

/// The request for what a line shows of an association.
pub fn peer_request(alloc: Global, assoc: u16) -> Result<Request, AllocError>
    ensures value { IfOk result (λ request. request ≡ peer_request assoc) }
    ensures request { IfOk result IsRequest }
{
    let names = Text::of(Vec::from_slice(alloc, PEER_VARIABLES)?);
    Ok(variables_request(assoc, names))
}

ghost use Rattle.std.specs.Prelude.{◌≡◌, List, Some, Err, IfOk, IfErr, OnOk, OnErr};
ghost use Rattle.server_core.specs.declared.class.Class.{Class};
ghost use Rattle.server_core.specs.declared.class.Unheard.{Unheard};
ghost use Rattle.mac_keys.specs.declared.keys.Key.{Key};
ghost use Rattle.server_core.specs.Books.{IsShort, IsTellableReply};
ghost use Rattle.server_core.specs.Class.{IsClass};
ghost use Rattle.server_core.specs.ReadReplies.{IsTellableRead};
ghost use Rattle.server_core.specs.Reply.{HasKey};
ghost use Rattle.server_core.specs.Responses.{IsAccepted, IsGivable, IsResponse, IsShortResponse, IsTellableResponse, IsUnmet, book_after, op_of, response_by, response_of, response_on, response_to, response_with};
ghost use Rattle.server_core.specs.States.{ServerState, reply_to};

use crate::book::Book;
use crate::class::{Ask, Class, Unheard};
use crate::classing::classify;
use crate::op::Op;
use crate::read_reply::ReadReply;
use crate::request::{Call, Request};
use crate::response::{Response, Silence};
use crate::step::{Reply, StepFault};
use crate::verdict::Verdict;
use mac_keys::KeyTable;
use mode6_frame::Head;
use net_addr::Addr;
use std::alloc::Global;
use sys_vars::{Answer, Context};

/// Takes a datagram to the server, and answers the response to it.
///
/// Its class is known before the server is touched: a datagram that is not heard leaves record,
/// client list, stamp and epoch as they were, and makes no entry in the journal. A request is one
/// operation of the server, and of its journal, unless the server refuses it or memory is wanting.
pub fn respond(
    alloc: Global,
    book: &mut Book,
    keys: &KeyTable,
    context: &Context,
    from: &Addr,
    bytes: &[u8],
) -> Result<Response, StepFault>
    ensures response { IfOk result
        (IsResponse book.old.state keys.now context.now from.now bytes.now) }
    ensures givable { IfOk result (IsGivable keys.now) }

    // What becomes of the server.
    ensures silent { (why : Unheard)
        → IsClass bytes.now from.now keys.now context.now (Class.Silent why) → book.new ≡ book.old }
    ensures after { (class : Class) → IsClass bytes.now from.now keys.now context.now class
        → OnOk result (book.new ≡ book_after book.old (op_of context.now class)) }
    ensures accepted { (class : Class) → IsClass bytes.now from.now keys.now context.now class
        → OnOk result (IsAccepted book.old (op_of context.now class)) }

    // A fault leaves it as it was.
    ensures untaken { (class : Class) → IsClass bytes.now from.now keys.now context.now class
        → IfErr result (IsUnmet book.old context.now class) }
    ensures kept { OnErr result (book.new ≡ book.old) }
{
    match classify(alloc, bytes, from, keys, context) {
        Err(_) => Err(StepFault::NoMemory),
        Ok(class) => respond_to_class(book, context, class),
    }
}

/// Takes a datagram of this class to the server, and answers the response to it.
fn respond_to_class(book: &mut Book, context: &Context, class: Class) -> Result<Response, StepFault>
    ensures response { IfOk result (λ response.
        response ≡ response_of book.old.state context.now class) }
    ensures short { IfOk result IsShortResponse }
    ensures tellable { IfOk result IsTellableResponse }
    ensures after { OnOk result (book.new ≡ book_after book.old (op_of context.now class)) }
    ensures accepted { OnOk result (IsAccepted book.old (op_of context.now class)) }
    ensures untaken { IfErr result (IsUnmet book.old context.now class) }
    ensures kept { OnErr result (book.new ≡ book.old) }
{
    match call_of(class, context) {
        Err(why) => Ok(Response::Silent(Silence::Unheard(why))),
        Ok(call) => {
            let Call { op, request } = call;
            Ok(response_to(request, book.step(op)?))
        }
    }
}

/// What a datagram of this class that came in this context asks of a server, or why it is not
/// heard.
pub fn call_of(class: Class, context: &Context) -> Result<Call, Unheard>
    ensures op { IfOk result (λ call. op_of context.now class ≡ Some call.op) }
    ensures response { (server : ServerState) → IfOk result (λ call.
        response_of server context.now class ≡ response_to call.request (reply_to server call.op)) }
    ensures unheard { IfErr result (λ why. class ≡ Class.Silent why) }
    ensures silent { (why : Unheard) → class ≡ Class.Silent why → result ≡ Err why }
{
    match class {
        Class::Silent(why) => Err(why),
        Class::Time(ask) => Ok(Call {
            op: Op::Arrive(ask, context.moment),
            request: Request::Time(ask),
        }),
        Class::Look(asked) => Ok(Call {
            op: Op::Look(asked, *context),
            request: Request::Look,
        }),
        Class::Read(ask) => {
            let request = Request::Read(ask.from, ask.head);
            Ok(Call {
                op: Op::Read(ask, context.moment),
                request,
            })
        }
    }
}

/// The response to a request by the server's reply to it.
pub fn response_to(request: Request, reply: Reply) -> Response
    ensures value { result ≡ response_to request reply }
    ensures short { IsShort reply → IsShortResponse result }
    ensures tellable { IsTellableReply reply → IsTellableResponse result }
{
    match (request, reply) {
        (Request::Time(ask), Reply::Time(verdict)) => response_by(ask, verdict),
        (Request::Look, Reply::Looked(answer)) => response_with(answer),
        (Request::Read(from, head), Reply::Read(reply)) => response_on(from, head, reply),
        _ => Response::Silent(Silence::Ignored),
    }
}

/// The response to a request for the time, by its verdict.
pub fn response_by(ask: Ask, verdict: Verdict) -> Response
    ensures value { result ≡ response_by ask verdict }
    ensures givable { (keys : List Key) → HasKey keys ask.auth → IsGivable keys result }
{
    match verdict {
        Verdict::Ignored => Response::Silent(Silence::Ignored),
        Verdict::Limited => Response::Silent(Silence::Limited),
        Verdict::Rate => Response::Rate(ask),
        Verdict::Served(basis) => Response::Time(ask, basis),
    }
}

/// The response to a control request, by its answer.
pub fn response_with(answer: Answer) -> Response
    ensures { result ≡ response_with answer }
{
    match answer {
        Answer::Ignored => Response::Silent(Silence::Ignored),
        Answer::Given { grams, .. } => Response::Grams(grams),
    }
}

/// The response to a read from this address whose answer repeats this head, by the server's reply.
pub fn response_on(from: Addr, head: Head, reply: ReadReply) -> Response
    ensures value { result ≡ response_on from head reply }
    ensures tellable { IsTellableRead reply → IsTellableResponse result }
{
    match reply {
        ReadReply::Ignored => Response::Silent(Silence::Ignored),
        _ => Response::Read(from, head, reply),
    }
}

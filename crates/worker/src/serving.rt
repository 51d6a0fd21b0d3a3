ghost use Rattle.std.specs.Prelude.{◌≡◌, ◌≢◌, ◌≤◌, ℕ, true, false, List, [], ◌∷◌, None, Some, IsSome, IfOk, IfErr, OnErr, Err, length, take};
ghost use Rattle.edge_traits.specs.Ports.{IsPortKept};
ghost use Rattle.edge_traits.specs.Told.{gained, Grows, Rose};
ghost use Rattle.giving.specs.Gives.{sent_events};
ghost use Rattle.server_core.specs.declared.op.Op.{Op};
ghost use Rattle.server_core.specs.declared.op.Stop.{Stop};
ghost use Rattle.server_core.specs.Books.{IsShort, IsTellableReply};
ghost use Rattle.server_core.specs.Class.{IsClass};
ghost use Rattle.server_core.specs.Responses.{IsGivable, IsShortResponse, IsTellableResponse, grams_of, response_to};
ghost use Rattle.server_core.specs.States.{ServerState, stop_in};
ghost use Rattle.shared_book.specs.Contexts.{context_at};
ghost use Rattle.shared_book.specs.Entries.{IsSameSeat};
ghost use Rattle.shared_book.specs.Stops.{IsEnded};
ghost use Rattle.worker.specs.Serving.{Becomes, IsGivenAs};

use crate::act::{Act, ActKind};
use crate::carry::Carry;
use crate::desk::Desk;
use crate::kinds::kind_by;
use edge_traits::{Clock, Gate, Port};
use giving::{GiveEnd, Given, give_response};
use net_addr::Addr;
use server_core::{
    Book, Call, Class, Reply, Request, Stop, Unheard, call_of, classify, response_to,
};
use shared_book::{Common, Unentered, context_at, enter_or_stop};
use std::sync::Wait;
use sys_vars::Context;
use turnstile::{Seat, Turnstile};

/// Answers the datagram that is held: its act, of this number, or the stop that stands, by which it
/// is still to be answered. The clock is read before it is classed, and again where it was entered.
pub(crate) fn serve<R: Wait, P: Port, C: Clock, G: Gate>(
    rt: &R,
    desk: &mut Desk<P, C>,
    common: &Common,
    door: &Turnstile<Book>,
    seat: &mut Seat<Book>,
    gate: &G,
    number: u64,
    held: &mut Carry,
) -> Result<Act, Stop>
    requires own { seat.old.door ≡ door.now }
    requires opened { IsSome seat.old.opening }
    requires most { 1024 ≤ P.most desk.old.port }
    ensures made { (opening : ServerState) → seat.old.opening ≡ Some opening
        → IfOk result (λ act. (answer : List (List ℕ)) × (readings : List ℕ)
        × Becomes common.now opening held.old act answer readings seat.old seat.new
        × Grows (C.readings desk.old.clock) (C.readings desk.new.clock) readings
        × (P.trace desk.new.port ≡ gained (P.trace desk.old.port)
        (sent_events act.from (take act.given answer)))) }
    ensures failed { IfOk result (λ act. act.failed ≡ true
        → Rose 1 (P.faults desk.old.port) (P.faults desk.new.port)) }
    ensures ended { (opening : ServerState) → seat.old.opening ≡ Some opening
        → IfErr result (λ stood. (op : Op) × (moment : ℕ)
        × IsEnded opening desk.old.who seat.old op stood seat.new
        × Grows (C.readings desk.old.clock) (C.readings desk.new.clock) (moment ∷ [])) }
    ensures stands { (stood : Stop) → result ≡ Err stood → stop_in seat.new.front ≡ Some stood }
    ensures untouched { OnErr result (desk.new.port ≡ desk.old.port) }
    ensures held { OnErr result (held.new ≡ held.old) }
    ensures who { desk.new.who ≡ desk.old.who }
    ensures kept { IsPortKept P.faults P.quiets P.address P.most desk.old.port desk.new.port }
    ensures same_seat { IsSameSeat seat.old seat.new }
{
    let context = context_at(common, desk.clock.now());
    match classify(
        desk.alloc,
        held.bytes.as_slice(),
        &held.from,
        &common.keys,
        &context,
    ) {
        Err(_) => Ok(unentered(held.from, context.moment, ActKind::Dropped(None))),
        Ok(class) => serve_class(
            rt, desk, common, door, seat, gate, number, held, &context, class,
        ),
    }
}

/// Answers the datagram that is held, which is of this class and came in this context.
fn serve_class<R: Wait, P: Port, C: Clock, G: Gate>(
    rt: &R,
    desk: &mut Desk<P, C>,
    common: &Common,
    door: &Turnstile<Book>,
    seat: &mut Seat<Book>,
    gate: &G,
    number: u64,
    held: &mut Carry,
    context: &Context,
    class: Class,
) -> Result<Act, Stop>
    requires own { seat.old.door ≡ door.now }
    requires opened { IsSome seat.old.opening }
    requires most { 1024 ≤ P.most desk.old.port }
    requires context { context.now ≡ context_at common.now context.now.moment }
    requires class { IsClass held.old.bytes held.old.from common.now.keys context.now class }
    ensures made { (opening : ServerState) → seat.old.opening ≡ Some opening
        → IfOk result (λ act. (answer : List (List ℕ)) × (readings : List ℕ)
        × Becomes common.now opening held.old act answer (context.now.moment ∷ readings)
        seat.old seat.new
        × Grows (C.readings desk.old.clock) (C.readings desk.new.clock) readings
        × (P.trace desk.new.port ≡ gained (P.trace desk.old.port)
        (sent_events act.from (take act.given answer)))) }
    ensures failed { IfOk result (λ act. act.failed ≡ true
        → Rose 1 (P.faults desk.old.port) (P.faults desk.new.port)) }
    ensures ended { (opening : ServerState) → seat.old.opening ≡ Some opening
        → IfErr result (λ stood. (op : Op)
        × IsEnded opening desk.old.who seat.old op stood seat.new) }
    ensures stands { (stood : Stop) → result ≡ Err stood → stop_in seat.new.front ≡ Some stood }
    ensures untouched { OnErr result (desk.new ≡ desk.old) }
    ensures held { OnErr result (held.new ≡ held.old) }
    ensures who { desk.new.who ≡ desk.old.who }
    ensures kept { IsPortKept P.faults P.quiets P.address P.most desk.old.port desk.new.port }
    ensures same_seat { IsSameSeat seat.old seat.new }
{
    match call_of(class, context) {
        Err(why) => Ok(unentered(held.from, context.moment, ActKind::Silent(why))),
        Ok(Call { op, request }) => match enter_or_stop(rt, door, seat, desk.who, op) {
            Err(Unentered::Ended(stop)) => Err(stop),
            Err(Unentered::NoMemory) => {
                Ok(unentered(held.from, context.moment, ActKind::Dropped(None)))
            }
            Ok((place, reply)) => {
                gate.pass(desk.who, number);
                Ok(answer(desk, common, held, context, request, place, reply))
            }
        },
    }
}

/// Answers the datagram that is held, which came in this context and was entered at this place, by
/// this reply. The clock is read, and then the datagram's octets may make room for those of the
/// answer.
fn answer<P: Port, C: Clock>(
    desk: &mut Desk<P, C>,
    common: &Common,
    held: &mut Carry,
    context: &Context,
    request: Request,
    place: u64,
    reply: Reply,
) -> Act
    requires most { 1024 ≤ P.most desk.old.port }
    requires short { IsShort reply }
    requires tellable { IsTellableReply reply }
    requires givable { IsShortResponse (response_to request reply)
        → IsTellableResponse (response_to request reply)
        → IsGivable common.now.keys (response_to request reply) }
    ensures given { (xmt : ℕ)
        × Grows (C.readings desk.old.clock) (C.readings desk.new.clock) (xmt ∷ [])
        × IsGivenAs place xmt reply
        (grams_of common.now.keys context.now xmt (response_to request reply)) result
        × (P.trace desk.new.port ≡ gained (P.trace desk.old.port) (sent_events held.old.from
        (take result.given
        (grams_of common.now.keys context.now xmt (response_to request reply))))) }
    ensures from { result.from ≡ held.old.from }
    ensures moment { result.moment ≡ context.now.moment }
    ensures failed { result.failed ≡ true
        → Rose 1 (P.faults desk.old.port) (P.faults desk.new.port) }
    ensures who { desk.new.who ≡ desk.old.who }
    ensures kept { IsPortKept P.faults P.quiets P.address P.most desk.old.port desk.new.port }
{
    let xmt = desk.clock.now();
    let kind = kind_by(place, xmt, &reply);
    let from = held.from;
    let given = give_response(
        desk.alloc,
        &mut desk.port,
        &common.keys,
        context,
        &response_to(request, reply),
        xmt,
        &from,
        &mut held.bytes,
    );
    given_act(from, context.moment, place, kind, given)
}

/// The act of a datagram that was entered at this place: of this kind, unless memory was wanting for
/// its answer.
fn given_act(from: Addr, moment: u64, place: u64, kind: ActKind, given: Given) -> Act
    ensures from { result.from ≡ from }
    ensures moment { result.moment ≡ moment }
    ensures given { result.given ≡ given.count }
    ensures whole { given.end ≡ GiveEnd.Whole → (result.kind ≡ kind) × (result.failed ≡ false) }
    ensures failed { given.end ≡ GiveEnd.Failed → (result.kind ≡ kind) × (result.failed ≡ true) }
    ensures dropped { given.end ≡ GiveEnd.NoMemory
        → (result.kind ≡ ActKind.Dropped (Some place)) × (result.failed ≡ false) }
{
    let kind = match given.end {
        GiveEnd::Whole | GiveEnd::Failed => kind,
        GiveEnd::NoMemory => ActKind::Dropped(Some(place)),
    };
    Act {
        from,
        moment,
        kind,
        given: given.count,
        failed: given.end == GiveEnd::Failed,
    }
}

/// The act of a datagram that was not entered.
fn unentered(from: Addr, moment: u64, kind: ActKind) -> Act
    ensures { result ≡ record {
      from = from;
      moment = moment;
      kind = kind;
      given = 0;
      failed = false;
    } }
{
    Act {
        from,
        moment,
        kind,
        given: 0,
        failed: false,
    }
}

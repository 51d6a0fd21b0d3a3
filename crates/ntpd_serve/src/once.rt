ghost use Rattle.std.specs.Prelude.{◌≡◌, ◌≢◌, ◌≤◌, ◌<◌, ℕ, List, [], ◌∷◌, ◌++◌, IsNone, IsTrue, IfSome, IfOk, IfErr};
ghost use Rattle.edge_traits.specs.Ports.{IsPortKept};
ghost use Rattle.edge_traits.specs.Told.{gained, Grows, Rose};
ghost use Rattle.edge_traits.specs.declared.port.Event.{Event};
ghost use Rattle.edge_traits.specs.declared.port.Event.TheVariants.{Took};
ghost use Rattle.sys_vars.specs.declared.context.Context.{Context};
ghost use Rattle.server_core.specs.Books.{IsOpen};
ghost use Rattle.server_core.specs.Class.{IsClass};
ghost use Rattle.server_core.specs.declared.class.Class.{Class};
ghost use Rattle.server_core.specs.declared.class.Unheard.{Unheard};
ghost use Rattle.server_core.specs.declared.response.Response.{Response};
ghost use Rattle.server_core.specs.declared.response.Silence.{Silence};
ghost use Rattle.ntpd_serve.specs.declared.ending.Ending.{Ending};
ghost use Rattle.ntpd_serve.specs.Ending.{Reports};
ghost use Rattle.ntpd_serve.specs.Once.{silences, Follows, Happens, LeavesUnheard, OnlySilences, Causes, HasCome, IsOpeningState, IsServed};

use crate::ending::{Ending, Failure, ending_of};
use crate::report::report;
use edge_traits::{Clock, Octets, Port, PortFault, Sink, Status, Taken};
use fixed_time::Ntp64;
use giving::give_response;
use net_addr::Addr;
use recency::Limits;
use server_core::{Book, Response, Silence, respond};
use shared_book::{Common, context_at};
use std::alloc::{AllocError, Global};
use sys_vars::Record;

/// After so many takes that found nothing a call gives up.
pub const PATIENCE: u32 = 60;

/// Serves one datagram by a server that has just begun, and prints what became of it. It gives up
/// after 60 takes that found nothing.
pub fn serve_once<P: Port, C: Clock, S: Sink>(
    alloc: Global,
    port: &mut P,
    clock: &mut C,
    common: &Common,
    out: &mut S,
) -> Status
    requires most { 1024 ≤ P.most port.old }

    // What happened, and what was printed; and where a datagram came, only a fault of the port or of
    // the sink, or want of memory, keeps it from being served.
    ensures served { (ending : Ending) × (events : List Event) × (readings : List ℕ)
        × Happens common.now ending events readings
        × (P.trace port.new ≡ gained (P.trace port.old) events)
        × Grows (C.readings clock.old) (C.readings clock.new) readings
        × Reports ending result (S.contents out.old) (S.contents out.new)
        × (HasCome events → ¬ Rose 1 (P.faults port.old) (P.faults port.new)
        → ¬ Rose 1 (S.faults out.old) (S.faults out.new) → IsServed result) }

    // Each status that is a fault has its cause.
    ensures port_failed { result.0 ≡ 4 → Rose 1 (P.faults port.old) (P.faults port.new) }
    ensures quiet { result.0 ≡ 6 → Rose PATIENCE (P.quiets port.old) (P.quiets port.new) }
    ensures closed { result.0 ≡ 7 → IsTrue (P.is_closed port.new) }
    ensures sink_failed { result.0 ≡ 8 → Rose 1 (S.faults out.old) (S.faults out.new) }

    ensures kept { IsPortKept P.faults P.quiets P.address P.most port.old port.new }
    ensures sink_faults_kept { S.faults out.old ≤ S.faults out.new }
{
    let ending = begin_and_serve(alloc, port, clock, common);
    report(&ending, out)
}

/// Takes until a datagram comes, and serves it by a server that has just begun.
fn begin_and_serve<P: Port, C: Clock>(
    alloc: Global,
    port: &mut P,
    clock: &mut C,
    common: &Common,
) -> Ending
    requires most { 1024 ≤ P.most port.old }
    ensures happens { (events : List Event) × (readings : List ℕ)
        × Happens common.now result events readings
        × (P.trace port.new ≡ gained (P.trace port.old) events)
        × Grows (C.readings clock.old) (C.readings clock.new) readings }
    ensures causes { Causes result (P.faults port.old) (P.faults port.new)
        (P.quiets port.old) (P.quiets port.new) (P.is_closed port.new) }
    ensures kept { IsPortKept P.faults P.quiets P.address P.most port.old port.new }
{
    match opening_book(alloc, common.origin) {
        Err(_) => Ending::Failed(Failure::NoMemory),
        Ok(mut book) => serve_next(alloc, port, clock, common, &mut book),
    }
}

/// A server that publishes the opening record, and that nobody has asked yet.
fn opening_book(alloc: Global, origin: Ntp64) -> Result<Book, AllocError>
    ensures state { IfOk result (λ book. IsOpeningState origin book.state) }
    ensures open { IfOk result (λ book. IsOpen book) }
{
    let record = Record::opening(alloc, origin)?;
    Book::begin(alloc, record, Limits::plain(), origin)
}

/// Takes until a datagram comes, and serves it by this server.
fn serve_next<P: Port, C: Clock>(
    alloc: Global,
    port: &mut P,
    clock: &mut C,
    common: &Common,
    book: &mut Book,
) -> Ending
    requires most { 1024 ≤ P.most port.old }
    requires opening { IsOpeningState common.now.origin book.old.state }
    requires open { IsOpen book.old }
    ensures happens { (events : List Event) × (readings : List ℕ)
        × Happens common.now result events readings
        × (P.trace port.new ≡ gained (P.trace port.old) events)
        × Grows (C.readings clock.old) (C.readings clock.new) readings }
    ensures causes { Causes result (P.faults port.old) (P.faults port.new)
        (P.quiets port.old) (P.quiets port.new) (P.is_closed port.new) }
    ensures kept { IsPortKept P.faults P.quiets P.address P.most port.old port.new }
{
    let mut datagram = Octets::new();
    match wait_for_datagram(port, &mut datagram) {
        Ok(from) => serve_datagram(alloc, port, clock, common, book, &from, &mut datagram),
        Err(why) => Ending::Failed(why),
    }
}

/// Takes until a datagram comes, or the call is to give up.
fn wait_for_datagram<P: Port>(port: &mut P, into: &mut Octets) -> Result<Addr, Failure>
    ensures came { IfOk result (λ from. (quiets : ℕ) × (quiets < PATIENCE)
        × (P.trace port.new
        ≡ gained (P.trace port.old) (silences quiets ++ Took from into.new ∷ []))) }
    ensures ended { IfErr result (λ why. (events : List Event) × OnlySilences why events
        × (P.trace port.new ≡ gained (P.trace port.old) events)) }
    ensures causes { IfErr result (λ why. Causes (Ending.Failed why)
        (P.faults port.old) (P.faults port.new)
        (P.quiets port.old) (P.quiets port.new) (P.is_closed port.new)) }
    ensures kept { IsPortKept P.faults P.quiets P.address P.most port.old port.new }
{
    'waiting: for _ in 0..PATIENCE {
        match port.take(into) {
            Ok(Taken::Datagram(from)) => return Ok(from),
            Ok(Taken::Quiet) => {}
            Ok(Taken::Closed) => return Err(Failure::Closed),
            Err(PortFault::Failed) => return Err(Failure::Port),
            Err(PortFault::NoMemory) => return Err(Failure::NoMemory),
        }
    }
    Err(Failure::Quiet)
}

/// Serves a datagram from this address by this server. The clock is read before the datagram is
/// classed, and again before an answer is made; then the datagram's octets may make room for those of
/// the reply.
fn serve_datagram<P: Port, C: Clock>(
    alloc: Global,
    port: &mut P,
    clock: &mut C,
    common: &Common,
    book: &mut Book,
    from: &Addr,
    datagram: &mut Octets,
) -> Ending
    requires most { 1024 ≤ P.most port.old }
    requires open { IsOpen book.old }
    ensures follows { (events : List Event) × (readings : List ℕ)
        × Follows common.now book.old.state result from.now datagram.old events readings
        × (P.trace port.new ≡ gained (P.trace port.old) events)
        × Grows (C.readings clock.old) (C.readings clock.new) readings
        × LeavesUnheard common.now from.now datagram.old readings book.old book.new }

    // A datagram that is heard at no moment leaves the server as it was.
    ensures silent { (why : Unheard)
        → ((context : Context)
        → IsClass datagram.old from.now common.now.keys context (Class.Silent why))
        → book.new ≡ book.old }

    ensures causes { Causes result (P.faults port.old) (P.faults port.new)
        (P.quiets port.old) (P.quiets port.new) (P.is_closed port.new) }
    ensures kept { IsPortKept P.faults P.quiets P.address P.most port.old port.new }
{
    let came = clock.now();
    let context = context_at(common, came);
    let keys = &common.keys;
    match respond(alloc, book, keys, &context, from, datagram.as_slice()) {
        Err(_) => Ending::Failed(Failure::NoMemory),
        Ok(response) => match silence_of(&response) {
            Some(why) => Ending::Silent(why),
            None => {
                let sent = clock.now();
                let given = give_response(
                    alloc, port, keys, &context, &response, sent, from, datagram,
                );
                ending_of(given)
            }
        },
    }
}

/// Why a response is none.
fn silence_of(response: &Response) -> Option<Silence>
    ensures silent { IfSome result (λ why. response.now ≡ Response.Silent why) }
    ensures heard { IsNone result → (why : Silence) → response.now ≢ Response.Silent why }
{
    match response {
        Response::Silent(why) => Some(*why),
        _ => None,
    }
}

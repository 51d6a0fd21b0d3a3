ghost use Rattle.std.specs.Prelude.{◌≡◌, ◌≢◌, ◌≤◌, Some, [], IsTrue, length};
ghost use Rattle.std.specs.List.{AllByRecursion};
ghost use Rattle.associations.specs.declared.asking.TheConstants.{MAX_REQUEST_LEN};
ghost use Rattle.server_core.specs.Books.{BookParts};
ghost use Rattle.server_core.specs.Histories.{state_after_all};
ghost use Rattle.server_core.specs.States.{ServerState, stop_in};
ghost use Rattle.pilot.specs.Flights.{IsReady, readied_for};
ghost use Rattle.worker.specs.Doings.{doing_of};
ghost use Rattle.responders.specs.Outcomes.{IsDone, outcome_of};
ghost use Rattle.responders.specs.Prepared.{IsPrepared};
ghost use Rattle.responders.specs.Sessions.{IsServed};
ghost use Rattle.responders.specs.declared.session.Outcome.{Outcome};

use crate::closing::{outcome_of, part};
use crate::jobs::{Flight, run_beside};
use crate::opening::{Prepared, board, prepare};
use crate::session::{Outcome, Session};
use crate::workers::Workers;
use edge_traits::{Clock, Gate, Port};
use pilot::Pilot;
use shared_book::Common;
use std::alloc::Global;
use std::sync::Wait;
use std::thread::Threads;
use turnstile::Returned;

/// Serves: each worker answers at its port, and the pilot keeps the time, each in a thread of its own
/// where one can be had, until all ports are closed or the server is stopped.
///
/// The book hands back the one history as its journal. Memory is taken before anything is taken from
/// a port or read of a clock; where it is wanting then, the session comes back as it was.
pub fn serve_session<
    R: Threads + Wait + Sync,
    P: Port + Drop + Send,
    C: Clock + Drop + Send,
    G: Gate + Sync,
>(rt: &R, alloc: Global, session: Session<P, C>, gate: &G) -> (Session<P, C>, Outcome)
    requires fresh { session.book.journal ≡ [] }
    requires origin { session.book.state.origin ≡ session.common.origin }
    requires most { AllByRecursion (λ worker. 1024 ≤ P.most worker.port) session.workers }
    requires pilot_most { MAX_REQUEST_LEN ≤ session.pilot.helm.outside.most }

    // What was done.
    ensures served { result.1 ≢ Outcome.NoMemory
        → IsServed (doing_of P.trace P.faults P.quiets P.address P.most C.readings)
        session.common session.book.state result.0.book.journal session.workers result.0.workers
        (readied_for session.book.state.published session.pilot) result.0.pilot }
    ensures state { result.0.book.state
        ≡ state_after_all session.book.state result.0.book.journal }

    // How it ended.
    ensures outcome { result.1 ≢ Outcome.NoMemory
        → result.1 ≡ outcome_of (stop_in result.0.book.journal) }
    ensures closed { result.1 ≡ Outcome.AllClosed
        → AllByRecursion (IsDone P.is_closed) result.0.workers }
    ensures pilot_closed { result.1 ≡ Outcome.AllClosed
        → IsTrue result.0.pilot.helm.outside.closed }

    // What stays.
    ensures common { result.0.common ≡ session.common }
    ensures no_memory { result.1 ≡ Outcome.NoMemory → result.0 ≡ session }
{
    let Session {
        common,
        book,
        workers,
        mut pilot,
    } = session;
    match prepare(alloc, book, &mut pilot, workers.len()) {
        Err(Returned { object: book }) => {
            let session = Session {
                common,
                book,
                workers,
                pilot,
            };
            (session, Outcome::NoMemory)
        }
        Ok(prepared) => serve_prepared(rt, common, workers, pilot, gate, prepared),
    }
}

/// Serves, once the memory for it was taken and the pilot made ready.
fn serve_prepared<
    R: Threads + Wait + Sync,
    P: Port + Drop + Send,
    C: Clock + Drop + Send,
    G: Gate + Sync,
>(
    rt: &R,
    common: Common,
    workers: Workers<P, C>,
    pilot: Pilot<P, C>,
    gate: &G,
    prepared: Prepared<P, C>,
) -> (Session<P, C>, Outcome)
    requires prepared { (book : BookParts) × (book.journal ≡ [])
        × IsPrepared book (length workers) prepared }
    requires most { AllByRecursion (λ worker. 1024 ≤ P.most worker.port) workers }
    requires pilot_most { MAX_REQUEST_LEN ≤ pilot.helm.outside.most }
    requires ready { IsReady pilot }
    ensures served { (opening : ServerState) → prepared.first.opening ≡ Some opening
        → IsServed (doing_of P.trace P.faults P.quiets P.address P.most C.readings)
        common opening result.0.book.journal workers result.0.workers
        pilot result.0.pilot }
    ensures state { (opening : ServerState) → prepared.first.opening ≡ Some opening
        → result.0.book.state ≡ state_after_all opening result.0.book.journal }
    ensures outcome { result.1 ≡ outcome_of (stop_in result.0.book.journal) }
    ensures closed { result.1 ≡ Outcome.AllClosed
        → AllByRecursion (IsDone P.is_closed) result.0.workers }
    ensures pilot_closed { result.1 ≡ Outcome.AllClosed
        → IsTrue result.0.pilot.helm.outside.closed }
    ensures common { result.0.common ≡ common }
{
    let who = workers.len() as u32;
    let Prepared {
        door,
        mut first,
        room,
    } = prepared;
    let jobs = board(&door, &mut first, workers.list, room.jobs);
    let flight = Flight {
        pilot,
        seat: first,
        who,
        end: None,
    };
    let (jobs, flight) = run_beside(rt, &common, &door, gate, jobs, flight);
    let (list, seats) = part(jobs, room.workers, room.seats);
    let book = door.close(flight.seat, seats);
    let outcome = outcome_of(book.stop());
    let session = Session {
        common,
        book,
        workers: Workers::of(list),
        pilot: flight.pilot,
    };
    (session, outcome)
}

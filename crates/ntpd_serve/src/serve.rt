ghost use Rattle.std.specs.Prelude.{◌≡◌, ◌≢◌, ◌≤◌, ◌⊎◌, [], IsNone, IfSome, IsSomeAnd, List};
ghost use Rattle.std.specs.List.{AllByRecursion};
ghost use Rattle.associations.specs.declared.asking.TheConstants.{MAX_REQUEST_LEN};
ghost use Rattle.conf_file.specs.declared.conf.Conf.{Conf};
ghost use Rattle.edge_traits.specs.Told.{gained, Rose};
ghost use Rattle.mac_keys.specs.declared.keys.Key.{Key};
ghost use Rattle.server_core.specs.declared.op.Why.{Why};
ghost use Rattle.responders.specs.Outcomes.{IsSessionOf};
ghost use Rattle.responders.specs.declared.session.Outcome.{Outcome};
ghost use Rattle.setup.specs.Files.{AreKeys, HasConf};
ghost use Rattle.setup.specs.Setups.{binds_for};
ghost use Rattle.ntpd_serve.specs.Ending.{Prints, Reports};
ghost use Rattle.ntpd_serve.specs.Serves.{HasNoSession, HasRefusedFile, IsDueRefusal, Serves, failure_of_setup, source_of};
ghost use Rattle.ntpd_serve.specs.Sessions.{IsStoppedFor, facts_of, outcome_status, session_lines};
ghost use Rattle.ntpd_serve.specs.declared.ending.Ending.{Ending};
ghost use Rattle.ntpd_serve.specs.declared.ending.Failure.{Failure};

use crate::command::{Ended, ended_before};
use crate::ending::{Ending, Failure};
use crate::outcome::facts_of;
use crate::report::report_session;
use edge_traits::{Clock, Gate, Host, Port, Sink, Status};
use responders::{Session, serve_session};
use setup::{SetupFault, set_up};
use std::alloc::Global;
use std::sync::Wait;
use std::thread::Threads;

/// Serves as the file of this name says.
pub(crate) fn serve_file<R: Threads + Wait + Sync, H: Host, S: Sink, G: Gate + Sync>(
    rt: &R,
    alloc: Global,
    name: &str,
    host: &mut H,
    gate: &G,
    out: &mut S,
) -> Ended<H::P, H::C, H::S>
where
    H::P: Send,
    H::C: Send,
    ensures session { IfSome result.session (λ last. (conf : Conf) × (keys : List Key)
        × (outcome : Outcome)
        × HasConf (H.files host.old) name.now conf
        × AreKeys (H.files host.old) conf.keys keys
        × (H.binds host.new ≡ gained (H.binds host.old) (binds_for conf))
        × Serves H.P.trace H.P.faults H.P.quiets H.P.address H.P.most H.P.is_closed H.C.readings
        conf keys (H.salt host.old) (H.origin host.old) outcome last
        × Prints (session_lines (facts_of last) outcome) (outcome_status outcome) result.status
        (S.contents out.old) (S.contents out.new)) }
    ensures before { IsNone result.session → (why : Failure)
        × HasNoSession H.S.faults (H.files host.old) name.now (H.faults host.old)
        (H.faults host.new) why result.source
        × Reports (Ending.Failed why) result.status (S.contents out.old) (S.contents out.new) }
    ensures single { IsNone result.single }
    ensures rehearsed { IsNone result.rehearsed }
    ensures refused { (why : Failure) → IsDueRefusal (H.files host.old) name.now why
        → Reports (Ending.Failed why) result.status (S.contents out.old) (S.contents out.new)
        ⊎ ((result.status.0 ≡ 3) ⊎ (8 ≤ result.status.0)) }

    ensures not_words { result.status.0 ≢ 1 }
    ensures file { result.status.0 ≡ 2 → HasRefusedFile (H.files host.old) name.now }
    ensures host_failed { result.status.0 ≡ 3 → Rose 1 (H.faults host.old) (H.faults host.new)
        ⊎ IsSomeAnd result.source (λ source. 1 ≤ H.S.faults source) }
    ensures port_failed { result.status.0 ≡ 4
        → IsSomeAnd result.session (IsStoppedFor Why.PortFault) }
    ensures clock_ended { result.status.0 ≡ 5
        → IsSomeAnd result.session (IsStoppedFor Why.ClockEnd) }
    ensures not_quiet { result.status.0 ≢ 6 }
    ensures not_closed { result.status.0 ≢ 7 }
    ensures sink_failed { result.status.0 ≡ 8 → Rose 1 (S.faults out.old) (S.faults out.new) }
{
    match set_up(alloc, host, name) {
        Ok(session) => {
            let (status, session) = serve_and_report(rt, alloc, session, gate, out);
            Ended {
                status,
                single: None,
                session: Some(session),
                rehearsed: None,
                source: None,
            }
        }
        Err(fault) => {
            let (why, source) = taken_apart(fault);
            ended_before(&Ending::Failed(why), source, out)
        }
    }
}

/// Serves a session, and prints what is to be said of it.
fn serve_and_report<
    R: Threads + Wait + Sync,
    P: Port + Drop + Send,
    C: Clock + Drop + Send,
    S: Sink,
    G: Gate + Sync,
>(rt: &R, alloc: Global, session: Session<P, C>, gate: &G, out: &mut S) -> (Status, Session<P, C>)
    requires fresh { session.book.journal ≡ [] }
    requires origin { session.book.state.origin ≡ session.common.origin }
    requires most { AllByRecursion (λ worker. 1024 ≤ P.most worker.port) session.workers }
    requires pilot_most { MAX_REQUEST_LEN ≤ session.pilot.helm.outside.most }
    ensures session { (outcome : Outcome)
        × IsSessionOf P.trace P.faults P.quiets P.address P.most P.is_closed C.readings
        session outcome result.1
        × Prints (session_lines (facts_of result.1) outcome) (outcome_status outcome) result.0
        (S.contents out.old) (S.contents out.new) }

    ensures status { (result.0.0 ≡ 0) ⊎ ((result.0.0 ≡ 4) ⊎ ((result.0.0 ≡ 5) ⊎ (8 ≤ result.0.0))) }
    ensures port_failed { result.0.0 ≡ 4 → IsStoppedFor Why.PortFault result.1 }
    ensures clock_ended { result.0.0 ≡ 5 → IsStoppedFor Why.ClockEnd result.1 }
    ensures sink_failed { result.0.0 ≡ 8 → Rose 1 (S.faults out.old) (S.faults out.new) }
{
    let (session, outcome) = serve_session(rt, alloc, session, gate);
    let status = report_session(&facts_of(&session), outcome, out);
    (status, session)
}

/// Why nothing is served where there is no session for this reason, and the source that failed, if it
/// was one.
fn taken_apart<S>(fault: SetupFault<S>) -> (Failure, Option<S>)
    ensures why { result.0 ≡ failure_of_setup fault }
    ensures source { result.1 ≡ source_of fault }
{
    match fault {
        SetupFault::Conf { line, word } => (Failure::Conf { line, word }, None),
        SetupFault::Keys { line, word } => (Failure::Keys { line, word }, None),
        SetupFault::TooLong => (Failure::TooLong, None),
        SetupFault::Host => (Failure::Host, None),
        SetupFault::Source(source) => (Failure::Host, Some(source)),
        SetupFault::NoMemory => (Failure::NoMemory, None),
    }
}

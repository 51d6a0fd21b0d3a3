//! Sessions of two workers and the pilot, each in a thread of its own.
ghost use Rattle.std.specs.Prelude.{◌≡◌, ◌≤◌, [], IfSome};
ghost use Rattle.std.specs.List.{AllByRecursion};
ghost use Rattle.associations.specs.declared.asking.TheConstants.{MAX_REQUEST_LEN};

use crate::keeping_time::{asked_first, pilot as asking_pilot};
use crate::shared::{CLIENT, ORIGIN, SECOND, begun, common, datagram};
use associations::Peers;
use discipline::{Loop, SoftClock};
use edge_traits::{Gate, Incoming, MemoryClock, MemoryPort, OpenGate, Port};
use pilot::Pilot;
use responders::{Outcome, Session, Workers, serve_session};
use server_core::{Stop, Why};
use std::alloc::Global;
use std::sync::atomic::{AtomicU64, Ordering};
use std::test::Fail;
use worker::{ActKind, Worker};

/// A client's request of version 4.
const TIME: [u8; 48] = *b"\x23\x00\x06\xe9\
    \x00\x00\x00\x00\x00\x00\x00\x00\x00\x00\x00\x00\x00\x00\x00\x00\x00\x00\x00\x00\x00\x00\
    \x00\x00\x00\x00\x00\x00\x00\x00\x00\x00\x00\x00\x00\x00\x83\xaa\x7e\x80\x00\x00\x00\x00";

/// How often a gate looks before it lets one pass who waits.
const LOOKS: u64 = 1_000_000_000;

/// The gate that holds worker 0 until worker 1 has passed.
#[derive(Drop)]
struct Holding {
    passed: AtomicU64,
    gave_up: AtomicU64,
}

impl Gate for Holding {
    fn pass(&self, who: u32, _act: u64) {
        if who != 0 {
            self.passed.store(1, Ordering::SeqCst);
            return;
        }
        for _ in 0..LOOKS {
            if self.passed.load(Ordering::SeqCst) == 1 {
                return;
            }
        }
        self.gave_up.store(1, Ordering::SeqCst);
    }
}

/// What comes to a port: the request so often, and then nothing any more; or where `fails` is less, the
/// port fails at the take of that number.
fn coming(alloc: Global, requests: u32, fails: u32) -> Option<Vec<Incoming>> {
    let mut incoming = Vec::new(alloc);
    for number in 0..requests {
        let next = if number == fails {
            Incoming::Fail
        } else {
            datagram(&CLIENT, &TIME)
        };
        incoming.push(next).ok()?;
    }
    Some(incoming)
}

/// A clock that stands at one second.
fn clock(alloc: Global) -> Option<MemoryClock> {
    let mut readings = Vec::new(alloc);
    readings.push(SECOND).ok()?;
    Some(MemoryClock::of(readings))
}

/// A pilot without servers, whose port is closed.
fn idle_pilot(alloc: Global) -> Option<Pilot<MemoryPort, MemoryClock>>
    ensures { IfSome result (λ pilot. MAX_REQUEST_LEN ≤ pilot.helm.outside.most) }
{
    let clock_of = SoftClock {
        base: 0,
        ntp: ORIGIN,
        freq: 0,
        slew: 0,
    };
    let port = MemoryPort::of(alloc, Vec::new(alloc), Vec::new(alloc));
    let peers = Peers::of(alloc, &[]).ok()?;
    let engine = Loop::of(clock_of, None);
    Some(Pilot::new(alloc, port, clock(alloc)?, peers, engine))
}

/// A session of two workers and this pilot: this comes to the first worker, whose gives of these
/// numbers fail, and one request to the second.
fn session(
    alloc: Global,
    incoming: Vec<Incoming>,
    failing: Vec<u64>,
    pilot: Pilot<MemoryPort, MemoryClock>,
) -> Option<Session<MemoryPort, MemoryClock>>
    requires { MAX_REQUEST_LEN ≤ pilot.helm.outside.most }
    ensures fresh { IfSome result (λ session. session.book.journal ≡ []) }
    ensures origin { IfSome result (λ session. session.book.state.origin ≡ session.common.origin) }
    ensures most { IfSome result (λ session. AllByRecursion
        (λ worker. 1024 ≤ ⟦<MemoryPort as Port>⟧.most worker.port) session.workers) }
    ensures pilot_most { IfSome result (λ session.
        MAX_REQUEST_LEN ≤ session.pilot.helm.outside.most) }
{
    let mut list = Vec::new(alloc);
    let first = MemoryPort::of(alloc, incoming, failing);
    list.push(Worker::new(alloc, 0, first, clock(alloc)?)).ok()?;
    let second = MemoryPort::of(alloc, coming(alloc, 1, 1)?, Vec::new(alloc));
    list.push(Worker::new(alloc, 1, second, clock(alloc)?))
        .ok()?;
    Some(Session {
        common: common(alloc),
        book: begun(alloc)?,
        workers: Workers::of(list),
        pilot,
    })
}

// A body that serves one worker after the other would leave the first one held.
#[test]
fn workers_serve_beside_each_other(rt: HostRuntime) -> Result<(), Fail> {
    let gate = Holding {
        passed: AtomicU64::new(0),
        gave_up: AtomicU64::new(0),
    };
    let alloc = rt.alloc();
    let pilot = idle_pilot(alloc).ok_or("memory")?;
    let incoming = coming(alloc, 1, 1).ok_or("memory")?;
    let session = session(alloc, incoming, Vec::new(alloc), pilot).ok_or("memory")?;
    let (session, outcome) = serve_session(&rt, alloc, session, &gate);
    assert_eq!(rt; outcome, Outcome::AllClosed);
    assert_eq!(rt; gate.gave_up.load(Ordering::SeqCst), 0);
    assert_eq!(rt; session.book.journal().len(), 2);
    let [first, second] = [place_of(&session, 0), place_of(&session, 1)];
    assert!(rt; (first == Some(0) && second == Some(1)) || (first == Some(1) && second == Some(0)));
    Ok(())
}

/// The place of a worker's first act.
fn place_of(session: &Session<MemoryPort, MemoryClock>, who: usize) -> Option<u64> {
    if who >= session.workers.len() {
        return None;
    }
    match session.workers.get(who).acts().first() {
        Some(act) => match act.kind {
            ActKind::Time { place, .. } => Some(place),
            _ => None,
        },
        None => None,
    }
}

#[test]
fn a_reply_is_settled_in_a_session(rt: HostRuntime) -> Result<(), Fail> {
    let alloc = rt.alloc();
    let pilot = asking_pilot(alloc)?;
    let incoming = coming(alloc, 1, 1).ok_or("memory")?;
    let session = session(alloc, incoming, Vec::new(alloc), pilot).ok_or("memory")?;
    let (session, outcome) = serve_session(&rt, alloc, session, &OpenGate);
    assert_eq!(rt; outcome, Outcome::AllClosed);
    assert!(rt; asked_first(session.pilot.port()));
    assert_eq!(rt; session.book.epoch(), 2);
    assert_eq!(rt; session.pilot.left(), 0);
    Ok(())
}

/// How many acts the first worker has, and how many of them have a give that failed.
fn first_acts(session: &Session<MemoryPort, MemoryClock>) -> (usize, u32) {
    if session.workers.len() == 0 {
        return (0, 0);
    }
    let acts = session.workers.get(0).acts();
    let mut failed: u32 = 0;
    for act in acts {
        if act.failed {
            failed = failed.saturating_add(1);
        }
    }
    (acts.len(), failed)
}

#[test]
fn each_take_and_each_give_may_fail(rt: HostRuntime) -> Result<(), Fail> {
    let alloc = rt.alloc();
    let stop = Stop {
        who: 0,
        why: Why::PortFault,
    };
    // The take that fails, the give that fails, and then the acts of the worker, those that failed and
    // how the session ends.
    let cases = [
        (0, 9, 0, 0, Outcome::Stopped(stop)),
        (1, 9, 1, 0, Outcome::Stopped(stop)),
        (2, 9, 2, 0, Outcome::Stopped(stop)),
        (9, 0, 3, 1, Outcome::AllClosed),
        (9, 1, 3, 1, Outcome::AllClosed),
        (9, 2, 3, 1, Outcome::AllClosed),
    ];
    for (take, give, acts, failed, ended) in cases {
        let pilot = idle_pilot(alloc).ok_or("memory")?;
        let incoming = coming(alloc, 3, take).ok_or("memory")?;
        let mut failing = Vec::new(alloc);
        failing.push(give)?;
        let session = session(alloc, incoming, failing, pilot).ok_or("memory")?;
        let (session, outcome) = serve_session(&rt, alloc, session, &OpenGate);
        assert_eq!(rt; outcome, ended, "take {take}, give {give}");
        assert_eq!(rt; first_acts(&session), (acts, failed));
    }
    Ok(())
}

ghost use Rattle.std.specs.Prelude.{◌≡◌, ◌≢◌, IfOk};
ghost use Rattle.drawn_session.specs.Ports.{PortParts, address_of, faults_of, is_closed_of, most_of, quiets_of, trace_of};
ghost use Rattle.drawn_session.specs.Sessions.{IsFirst, IsSessionEnd, clock_told};
ghost use Rattle.responders.specs.Outcomes.{IsSessionOf};
ghost use Rattle.edge_traits.specs.declared.memory_clock.MemoryClock.{MemoryClock};
ghost use Rattle.responders.specs.declared.session.Outcome.{Outcome};
ghost use Rattle.responders.specs.declared.session.Session.{Session};

use crate::counts::{Counts, counts_of};
use crate::opening::open_session;
use crate::port::DrawnPort;
use edge_traits::{Gate, MemoryClock};
use responders::{Outcome, Session, serve_session};
use std::alloc::{AllocError, Global};
use std::sync::Wait;
use std::thread::Threads;

/// A drawn session that ended: how, what it left, and how much was done in it.
#[derive(Drop)]
pub struct SessionEnd {
    pub session: Session<DrawnPort, MemoryClock>,
    pub outcome: Outcome,
    pub counts: Counts,
}

/// Serves the session that this number draws: 4,096 datagrams of 600 clients, at two workers.
pub fn session_run<R: Threads + Wait + Sync, G: Gate + Sync>(
    rt: &R,
    alloc: Global,
    number: u64,
    gate: &G,
) -> Result<SessionEnd, AllocError>
    ensures { IfOk result (IsSessionEnd number) }
{
    let first = open_session(alloc, number)?;
    let (session, outcome) = serve_session(rt, alloc, first, gate);
    match outcome {
        Outcome::NoMemory => Err(AllocError),
        Outcome::AllClosed | Outcome::Stopped(_) => Ok(finish(number, session, outcome)),
    }
}

/// What became of a session that ended so.
fn finish(number: u64, session: Session<DrawnPort, MemoryClock>, outcome: Outcome) -> SessionEnd
    requires ran { outcome ≢ Outcome.NoMemory }
    requires served { (first : Session PortParts MemoryClock) × IsFirst number first
        × IsSessionOf trace_of faults_of quiets_of address_of most_of is_closed_of clock_told
        first outcome session }
    ensures { IsSessionEnd number result }
{
    let counts = counts_of(&session);
    SessionEnd {
        session,
        outcome,
        counts,
    }
}

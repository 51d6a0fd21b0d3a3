ghost use Rattle.std.specs.Prelude.{◌≡◌};
ghost use Rattle.ntpd_serve.specs.Sessions.{facts_of, failure_by, failure_of, outcome_status};

use crate::ending::{Failure, failure_status};
use edge_traits::{Clock, Port, Status};
use responders::{Outcome, Session};
use server_core::{Stop, Why};

/// What the line of a session says: how many operations its history has, how many clients are listed,
/// the number of the published record, and how much the pilot left out for want of memory.
#[derive(Clone, Copy, Debug, PartialEq, Eq)]
pub struct SessionFacts {
    pub entries: u64,
    pub clients: u32,
    pub epoch: u64,
    pub left: u64,
}

/// What the line of a session says.
pub fn facts_of<P: Port, C: Clock>(session: &Session<P, C>) -> SessionFacts
    ensures { result ≡ facts_of session.now }
{
    SessionFacts {
        entries: session.book.journal().len() as u64,
        clients: session.book.listed(),
        epoch: session.book.epoch(),
        left: session.pilot.left(),
    }
}

/// Why no more is served after this outcome, where that is a failure.
pub fn failure_of(outcome: Outcome) -> Option<Failure>
    ensures { result ≡ failure_of outcome }
{
    match outcome {
        Outcome::AllClosed => None,
        Outcome::Stopped(Stop { why, .. }) => failure_by(why),
        Outcome::NoMemory => Some(Failure::NoMemory),
    }
}

/// Why no more is served after a stop for this reason, where that is a failure. The limits of one
/// session are none.
fn failure_by(why: Why) -> Option<Failure>
    ensures { result ≡ failure_by why }
{
    match why {
        Why::PortFault => Some(Failure::Port),
        Why::ClockEnd => Some(Failure::Clock),
        Why::Entries | Why::Publications | Why::Acts => None,
    }
}

/// The exit status after this outcome.
pub fn outcome_status(outcome: Outcome) -> Status
    ensures { result.0 ≡ outcome_status outcome }
{
    match failure_of(outcome) {
        None => Status(0),
        Some(why) => failure_status(&why),
    }
}

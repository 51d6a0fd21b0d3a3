ghost use Rattle.std.specs.Prelude.{◌≡◌, ◌<◌, ◌&&◌, nat_le, not};
ghost use Rattle.server_core.specs.States.{may_draw, is_publish, is_stop, limit_met, refusal_of};

use crate::journal::Journal;
use crate::op::{MAX_ENTRIES, MAX_PUBLICATIONS, Op, Why};
use crate::step::StepFault;

/// Why an operation is refused over this journal and this last stamp, whatever the memory.
pub(crate) fn refusal(journal: &Journal, stamp: u64, op: &Op) -> Option<StepFault>
    ensures { result ≡ refusal_of journal.now stamp op.now }
{
    match journal.stop() {
        Some(stop) => Some(StepFault::Ended(stop)),
        None => limit_met(journal, stamp, op),
    }
}

/// The first limit that an operation meets.
fn limit_met(journal: &Journal, stamp: u64, op: &Op) -> Option<StepFault>
    ensures { result ≡ limit_met journal.now stamp op.now }
{
    if !is_stop(op) && journal.len() >= MAX_ENTRIES {
        return Some(StepFault::Full(Why::Entries));
    }
    if is_publish(op) && journal.publications() >= MAX_PUBLICATIONS {
        return Some(StepFault::Full(Why::Publications));
    }
    if may_draw(op) && stamp == u64::MAX {
        return Some(StepFault::ClockEnd);
    }
    None
}

fn is_stop(op: &Op) -> bool
    ensures { result ≡ is_stop op.now }
{
    match op {
        Op::Stop(_) => true,
        Op::Publish(_) | Op::Arrive(..) | Op::Look(..) | Op::Read(..) | Op::Sweep(_) => false,
    }
}

fn is_publish(op: &Op) -> bool
    ensures { result ≡ is_publish op.now }
{
    match op {
        Op::Publish(_) => true,
        Op::Arrive(..) | Op::Look(..) | Op::Read(..) | Op::Sweep(_) | Op::Stop(_) => false,
    }
}

fn may_draw(op: &Op) -> bool
    ensures { result ≡ may_draw op.now }
{
    match op {
        Op::Arrive(..) | Op::Read(..) => true,
        Op::Publish(_) | Op::Look(..) | Op::Sweep(_) | Op::Stop(_) => false,
    }
}

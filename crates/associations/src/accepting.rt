ghost use Rattle.std.specs.Prelude.{◌≡◌, ◌≤◌, IfErr, None, false};
ghost use Rattle.associations.specs.Associations.{IsAssociation};
ghost use Rattle.associations.specs.Judging.{IsDecided, IsSynchronized, early_fault_of, ends_waiting};
ghost use Rattle.associations.specs.Accepting.{accepted, gives_estimate, is_fresh, judged, reach_after_reply, sampled, taken_over, with_header, verdict_of};

use crate::association::{Association, note_event};
use crate::judging::{ReplyFault, late_fault, refuse};
use crate::sampling::measure;
use clock_filter::Sample;
use fixed_time::{Ntp64, from_short};
use mode6_frame::REACHABLE;
use ntp_trailer::JudgedPacket;

/// Takes the fields of a reply's header over.
fn take_header(of: &mut Association, reply: &JudgedPacket)
    ensures value { of.new ≡ with_header of.old reply.now }
    ensures sound { IsSynchronized reply.now → IsAssociation of.old → IsAssociation of.new }
{
    let header = &reply.header;
    of.pmode = header.mode;
    of.ppoll = header.poll;
    of.leap = header.leap;
    of.stratum = header.stratum;
    of.precision = header.precision;
    of.root_delay = from_short(header.root_delay);
    of.root_disp = from_short(header.root_disp);
    of.refid = header.refid;
    of.reference = header.reference;
    of.transmit = header.transmit;
    of.auth_ok = reply.auth.is_good();
}

/// The reach register after a reply.
fn mark(reach: u8) -> u8
    ensures { result ≡ reach_after_reply reach }
{
    reach | 1
}

/// Keeps that a reply came when our clock showed the destination timestamp.
fn take_over(of: &mut Association, reply: &JudgedPacket, destination: Ntp64)
    ensures value { of.new ≡ taken_over of.old reply.now destination }
    ensures sound { IsSynchronized reply.now → IsAssociation of.old → IsAssociation of.new }
{
    let is_new = of.reach == 0;
    take_header(of, reply);
    of.received = destination;
    of.pending = None;
    of.reach = mark(of.reach);
    if is_new {
        note_event(of, REACHABLE);
    }
}

/// Puts a sample into the filter; whether there is a new estimate.
fn put_sample(of: &mut Association, sample: Sample, moment: u64) -> bool
    ensures after { of.new ≡ sampled of.old sample moment }
    ensures fresh { result ≡ gives_estimate of.old.filter sample moment }
    ensures sound { IsAssociation of.old → IsAssociation of.new }
{
    let estimate = of.filter.put(sample, moment);
    of.estimate = estimate.or(of.estimate);
    estimate.is_some()
}

/// Accepts a reply; whether there is a new estimate.
fn accept(of: &mut Association, reply: &JudgedPacket, destination: Ntp64, moment: u64) -> bool
    ensures after { of.new ≡ accepted of.old reply.now destination moment }
    ensures fresh { result ≡ is_fresh of.old reply.now destination moment }
    ensures sound { IsSynchronized reply.now → IsAssociation of.old → IsAssociation of.new }
{
    let sample = measure(&reply.header, destination, moment);
    take_over(of, reply, destination);
    put_sample(of, sample, moment)
}

/// Refuses a reply without an early fault for its first one, or accepts it; whether there is a new
/// estimate.
#[tactic(auto, using(crate::proofs::JudgingLemmas::first_fault_late))]
pub(crate) fn judge(
    of: &mut Association,
    reply: &JudgedPacket,
    destination: Ntp64,
    moment: u64,
) -> Result<bool, ReplyFault>
    requires { early_fault_of of.old reply.now.header ≡ None }
    ensures verdict { result ≡ verdict_of of.old reply.now destination moment }
    ensures after { of.new ≡ judged of.old reply.now destination moment }
    ensures kept { IfErr result (λ fault. ends_waiting fault ≡ false → of.new ≡ of.old) }
    ensures decided { IfErr result IsDecided }
    ensures sound { reply.now.header.leap ≤ 3 → IsAssociation of.old → IsAssociation of.new }
{
    match late_fault(of, reply) {
        Some(fault) => {
            refuse(of, fault);
            Err(fault)
        }
        None => Ok(accept(of, reply, destination, moment)),
    }
}

ghost use Rattle.std.specs.Prelude.{◌≡◌, ◌≤◌, ◌+◌, length, decimal, ◌++◌, OnOk, OnErr, IsErrOf};
ghost use Rattle.edge_traits.specs.Told.{gained, GainedFront, Rose};
ghost use Rattle.ntpq_client.specs.declared.fault.AskFault.{AskFault};
ghost use Rattle.ntpq_tool.specs.Ending.{failure_line, failure_text, fault_text, output_of, Reports};

use crate::ending::{Ending, Failure, status_of};
use edge_traits::{Octets, Sink, SinkFault, Status, write_whole};
use itoa::Buffer;
use ntpq_client::AskFault;

/// Writes the report, or the failure's line, and answers the exit status: the ending's, or 8 where
/// the sink failed, or 9 where it had no memory.
pub fn report<S: Sink>(ending: &Ending, out: &mut S) -> Status
    ensures reported { Reports ending.now result (S.contents out.old) (S.contents out.new) }
    ensures failed { result.0 ≡ 8 → Rose 1 (S.faults out.old) (S.faults out.new) }
    ensures faults_kept { S.faults out.old ≤ S.faults out.new }
{
    match write_output(ending, out) {
        Ok(()) => status_of(ending),
        Err(SinkFault::Failed) => Status(8),
        Err(SinkFault::NoMemory) => Status(9),
    }
}

/// Writes what is printed of the ending. After a fault the sink has gained a front of it.
fn write_output<S: Sink>(ending: &Ending, out: &mut S) -> Result<(), SinkFault>
    ensures whole { OnOk result
        (S.contents out.new ≡ gained (S.contents out.old) (output_of ending.now)) }
    ensures front { OnErr result
        (GainedFront (S.contents out.old) (S.contents out.new) (output_of ending.now)) }
    ensures failed { IsErrOf result SinkFault.Failed → Rose 1 (S.faults out.old) (S.faults out.new) }
    ensures faults_kept { S.faults out.old ≤ S.faults out.new }
{
    match ending {
        Ok(text) => write_whole(out, text.as_slice()),
        Err(why) => write_whole(out, line_of(why).as_slice()),
    }
}

/// The failure's line.
#[tactic(auto, unfolding(crate::specs::Ending::failure_line))]
fn line_of(why: &Failure) -> Octets
    ensures { result ≡ failure_line why.now }
{
    let mut line = Octets::new();
    line.put(b"ntpq: ");
    put_failure(&mut line, why);
    line.push(b'\n');
    line
}

/// Appends why there is no report.
fn put_failure(line: &mut Octets, why: &Failure)
    requires { length line.old ≤ 100 }
    ensures text { line.new ≡ line.old ++ failure_text why.now }
    ensures short { length line.new ≤ length line.old + 100 }
{
    match why {
        Failure::Words => line.put(b"words"),
        Failure::Ask(fault) => put_fault(line, fault),
        Failure::BadReply => line.put(b"bad reply"),
        Failure::NoMemory => line.put(b"memory"),
    }
}

/// Appends why an answer did not come.
fn put_fault(line: &mut Octets, fault: &AskFault)
    requires { length line.old ≤ 100 }
    ensures text { line.new ≡ line.old ++ fault_text fault.now }
    ensures short { length line.new ≤ length line.old + 100 }
{
    match fault {
        AskFault::Port => line.put(b"port"),
        AskFault::Closed => line.put(b"closed"),
        AskFault::NoReply => line.put(b"no reply"),
        AskFault::Refused(code) => put_refused(line, *code),
        AskFault::Incomplete => line.put(b"incomplete"),
        AskFault::Flooded => line.put(b"flooded"),
        AskFault::NoMemory => line.put(b"memory"),
    }
}

/// Appends that a request is refused, with the error code in decimal.
fn put_refused(line: &mut Octets, code: u8)
    requires { length line.old ≤ 100 }
    ensures text { line.new ≡ line.old ++ fault_text (AskFault.Refused code) }
    ensures short { length line.new ≤ length line.old + 100 }
{
    let mut digits = Buffer::new();
    line.put(b"refused ");
    line.put(digits.format(code).as_bytes());
}

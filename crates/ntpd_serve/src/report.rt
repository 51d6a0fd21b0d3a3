ghost use Rattle.std.specs.Prelude.{◌≡◌, ◌≤◌, ◌+◌, ◌⊎◌, length, decimal, ◌++◌, ◌∷◌, []};
ghost use Rattle.edge_traits.specs.Told.{Rose};
ghost use Rattle.ntpd_serve.specs.Ending.{line_of, ending_text, failure_text, place_text, silence_text, unheard_text, Prints, Reports};
ghost use Rattle.ntpd_serve.specs.Sessions.{failure_line, outcome_status, session_lines};

use crate::ending::{Ending, Failure, status_of};
use crate::outcome::{SessionFacts, failure_of, outcome_status};
use edge_traits::{Octets, Sink, SinkFault, Status, write_whole};
use itoa::Buffer;
use responders::Outcome;
use server_core::{Silence, Unheard};

/// Writes the ending's line, and answers the exit status: the ending's, or 8 where the sink failed,
/// or 9 where it had no memory.
pub fn report<S: Sink>(ending: &Ending, out: &mut S) -> Status
    ensures reported { Reports ending.now result (S.contents out.old) (S.contents out.new) }
    ensures failed { result.0 ≡ 8 → Rose 1 (S.faults out.old) (S.faults out.new) }
    ensures faults_kept { S.faults out.old ≤ S.faults out.new }
{
    print(line_of(ending).as_slice(), status_of(ending), out)
}

/// Writes a text, and answers the status that is due with it, or 8 where the sink failed, or 9 where
/// it had no memory.
fn print<S: Sink>(text: &[u8], due: Status, out: &mut S) -> Status
    ensures printed { Prints text.now due.0 result (S.contents out.old) (S.contents out.new) }
    ensures failed { result.0 ≡ 8 → (due.0 ≡ 8) ⊎ Rose 1 (S.faults out.old) (S.faults out.new) }
    ensures faults_kept { S.faults out.old ≤ S.faults out.new }
{
    match write_whole(out, text) {
        Ok(()) => due,
        Err(SinkFault::Failed) => Status(8),
        Err(SinkFault::NoMemory) => Status(9),
    }
}

/// Writes the line of a session that ended so, and that of why no more is served, and answers the exit
/// status.
pub fn report_session<S: Sink>(facts: &SessionFacts, outcome: Outcome, out: &mut S) -> Status
    ensures reported { Prints (session_lines facts.now outcome) (outcome_status outcome) result
        (S.contents out.old) (S.contents out.new) }
    ensures failed { result.0 ≡ 8 → Rose 1 (S.faults out.old) (S.faults out.new) }
    ensures faults_kept { S.faults out.old ≤ S.faults out.new }
{
    let lines = session_lines(facts, outcome);
    print(lines.as_slice(), outcome_status(outcome), out)
}

/// The line of a session, and where it ended by a failure, the line of that.
fn session_lines(facts: &SessionFacts, outcome: Outcome) -> Octets
    ensures { result ≡ session_lines facts.now outcome }
{
    let mut lines = Octets::new();
    put_numbered(&mut lines, b"session entries ", facts.entries);
    put_numbered(&mut lines, b" clients ", u64::from(facts.clients));
    put_numbered(&mut lines, b" epoch ", facts.epoch);
    put_numbered(&mut lines, b" left ", facts.left);
    lines.push(b'\n');
    put_failure_line(&mut lines, failure_of(outcome));
    lines
}

/// Appends the line of a failure, or of none.
fn put_failure_line(lines: &mut Octets, failed: Option<Failure>)
    requires { length lines.old ≤ 300 }
    ensures { lines.new ≡ lines.old ++ failure_line failed }
{
    if let Some(why) = failed {
        lines.put(line_of(&Ending::Failed(why)).as_slice());
    }
}

/// The ending's line.
fn line_of(ending: &Ending) -> Octets
    ensures line { result ≡ line_of ending.now }
    ensures short { length result ≤ 101 }
{
    let mut line = Octets::new();
    put_ending(&mut line, ending);
    line.push(b'\n');
    line
}

/// Appends what is printed of the ending.
fn put_ending(line: &mut Octets, ending: &Ending)
    requires { length line.old ≤ 100 }
    ensures text { line.new ≡ line.old ++ ending_text ending.now }
    ensures short { length line.new ≤ length line.old + 100 }
{
    match ending {
        Ending::Answered(count) => put_numbered(line, b"answered ", *count),
        Ending::Silent(why) => {
            line.put(b"silent ");
            put_silence(line, why);
        }
        Ending::Failed(why) => {
            line.put(b"ntpd: ");
            put_failure(line, why);
        }
    }
}

/// Appends why a datagram got no answer.
fn put_silence(line: &mut Octets, why: &Silence)
    requires { length line.old ≤ 200 }
    ensures text { line.new ≡ line.old ++ silence_text why.now }
    ensures short { length line.new ≤ length line.old + 30 }
{
    match why {
        Silence::Unheard(why) => put_unheard(line, why),
        Silence::Ignored => line.put(b"ignored"),
        Silence::Limited => line.put(b"limited"),
    }
}

/// Appends why nothing was served, or no more.
fn put_failure(line: &mut Octets, why: &Failure)
    requires { length line.old ≤ 200 }
    ensures text { line.new ≡ line.old ++ failure_text why.now }
    ensures short { length line.new ≤ length line.old + 60 }
{
    match why {
        Failure::Words => line.put(b"words"),
        Failure::Conf { line: at, word } => put_place(line, b"conf", *at, *word),
        Failure::Keys { line: at, word } => put_place(line, b"keys", *at, *word),
        Failure::TooLong => line.put(b"file too long"),
        Failure::Host => line.put(b"host"),
        Failure::Port => line.put(b"port"),
        Failure::Clock => line.put(b"clock"),
        Failure::Quiet => line.put(b"quiet"),
        Failure::Closed => line.put(b"closed"),
        Failure::NoMemory => line.put(b"memory"),
    }
}

/// Appends a word of a file.
fn put_place(line: &mut Octets, file: &[u8], at: u32, word: u32)
    requires line { length line.old ≤ 200 }
    requires file { length file.now ≤ 4 }
    ensures text { line.new ≡ line.old ++ file.now ++ place_text at word }
    ensures short { length line.new ≤ length line.old + 60 }
{
    line.put(file);
    put_numbered(line, b" line ", u64::from(at));
    put_numbered(line, b" word ", u64::from(word));
}

/// Appends why a datagram is not heard.
fn put_unheard(line: &mut Octets, why: &Unheard)
    requires { length line.old ≤ 200 }
    ensures text { line.new ≡ line.old ++ unheard_text why.now }
    ensures short { length line.new ≤ length line.old + 30 }
{
    match why {
        Unheard::Packet(number) => put_numbered(line, b"packet ", u64::from(*number)),
        Unheard::Trailer(number) => put_numbered(line, b"trailer ", u64::from(*number)),
        Unheard::Frame(number) => put_numbered(line, b"frame ", u64::from(*number)),
        Unheard::Unserved(mode) => put_numbered(line, b"unserved ", u64::from(*mode)),
        Unheard::NotRequest => line.put(b"not-request"),
        Unheard::BadNonce => line.put(b"bad-nonce"),
    }
}

/// Appends a word and a decimal number.
fn put_numbered(line: &mut Octets, word: &[u8], number: u64)
    requires line { length line.old ≤ 300 }
    requires word { length word.now ≤ 16 }
    ensures text { line.new ≡ line.old ++ word.now ++ decimal number }
    ensures short { length line.new ≤ length line.old + length word.now + 20 }
{
    let mut digits = Buffer::new();
    line.put(word);
    line.put(digits.format(number).as_bytes());
}

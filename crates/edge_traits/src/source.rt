ghost use Rattle.std.specs.Prelude.{◌≡◌, ◌+◌, ◌≤◌, ◌<◌, ℕ, Option, List, [], drop, length, OnOk, OnErr, IfOk, IsErrOf};
ghost use Rattle.edge_traits.specs.Told.{Rose, TellsJust};
ghost use Rattle.edge_traits.specs.Reads.{octets_read, preceded, Passed, PassedAtMost};

use std::alloc::Global;

/// How many octets a whole read asks for at a time, at most.
const PIECE: usize = 4096;

/// Why a read failed: the source could not do it, and its count of faults rose.
#[derive(Clone, Copy, Debug, PartialEq, Eq)]
pub struct Failed;

/// Why a whole read failed.
#[derive(Clone, Copy, Debug, PartialEq, Eq)]
pub enum ReadFault {
    /// There are more octets than are wanted.
    TooLong,
    /// A read of the source failed.
    Failed,
    /// Memory was wanting.
    NoMemory,
}

/// Where octets are read from, one after another.
pub trait Source {
    /// The octets still to come, where they are told.
    ghost rest: { Self → Option (List ℕ) };

    /// How many reads failed.
    ghost faults: { Self → ℕ };

    /// Reads the next octets into a front of `into`, and answers how many; the others stay. 0
    /// for a slice that isn't empty is the end.
    fn read(&mut self, into: &mut [u8]) -> Result<usize, Failed>
        ensures told { rest self.old ≡ preceded (octets_read result into.new) (rest self.new) }
        ensures within { IfOk result (λ n. n ≤ length into.old) }
        ensures end { result ≡ Ok 0 → 0 < length into.old → TellsJust (rest self.old) [] }
        ensures failed { OnErr result (Rose 1 (faults self.old) (faults self.new)) }

        // What was not read into stays, and the count never falls.
        ensures others { IfOk result (λ n. drop n into.new ≡ drop n into.old) }
        ensures err { OnErr result (into.new ≡ into.old) }
        ensures faults_kept { faults self.old ≤ faults self.new };
}

/// Reads all octets up to the end, of which there may be `most`. It reads one more at most: after a
/// fault the source is past those that were read.
pub fn read_whole<S: Source>(
    alloc: Global,
    source: &mut S,
    most: usize,
) -> Result<Vec<u8>, ReadFault>
    ensures whole { IfOk result (λ octets. TellsJust (S.rest source.old) octets.items) }
    ensures within { IfOk result (λ octets. length octets.items ≤ most) }
    ensures end { OnOk result (TellsJust (S.rest source.new) []) }
    ensures too_long { IsErrOf result ReadFault.TooLong
        → Passed (most + 1) (S.rest source.old) (S.rest source.new) }
    ensures front { OnErr result
        (PassedAtMost (most + 1) (S.rest source.old) (S.rest source.new)) }
    ensures failed { IsErrOf result ReadFault.Failed
        → Rose 1 (S.faults source.old) (S.faults source.new) }
    ensures faults_kept { S.faults source.old ≤ S.faults source.new }
{
    let mut octets = Vec::new(alloc);
    let mut piece = [0; PIECE];
    loop {
        let room = most - octets.len();
        let wanted = room.min(PIECE - 1) + 1;
        match source.read(&mut piece[..wanted]) {
            Err(Failed) => return Err(ReadFault::Failed),
            Ok(0) => return Ok(octets),
            Ok(n) if n > room => return Err(ReadFault::TooLong),
            Ok(n) => {
                if octets.extend_from_slice(&piece[..n]).is_err() {
                    return Err(ReadFault::NoMemory);
                }
            }
        }
    }
}

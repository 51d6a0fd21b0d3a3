ghost use Rattle.std.specs.Prelude.{◌≡◌, ◌≤◌, ◌<◌, ℕ, Option, List, length, OnOk, OnErr, IfOk, IsErrOf};
ghost use Rattle.edge_traits.specs.Told.{gained, Rose, GainedFront};
ghost use Rattle.edge_traits.specs.Written.{written};

/// Why a write failed.
#[derive(Clone, Copy, Debug, PartialEq, Eq)]
pub enum SinkFault {
    /// The sink could not do it; its count of faults rose.
    Failed,
    /// Memory was wanting.
    NoMemory,
}

/// Where octets are written to, one after another.
pub trait Sink {
    /// The octets written so far, where they are told.
    ghost contents: { Self → Option (List ℕ) };

    /// How many writes failed.
    ghost faults: { Self → ℕ };

    /// Writes a front of the octets, and answers how many: at least one where there is one.
    fn write(&mut self, from: &[u8]) -> Result<usize, SinkFault>
        ensures told { contents self.new ≡ gained (contents self.old) (written result from.now) }
        ensures within { IfOk result (λ n. n ≤ length from.now) }
        ensures progress { IfOk result (λ n. 0 < length from.now → 0 < n) }
        ensures failed { IsErrOf result SinkFault.Failed
            → Rose 1 (faults self.old) (faults self.new) }
        ensures faults_kept { faults self.old ≤ faults self.new };
}

/// Writes all of the octets. After a fault the sink has gained a front of them.
pub fn write_whole<S: Sink>(sink: &mut S, from: &[u8]) -> Result<(), SinkFault>
    ensures whole { OnOk result (S.contents sink.new ≡ gained (S.contents sink.old) from.now) }
    ensures front { OnErr result
        (GainedFront (S.contents sink.old) (S.contents sink.new) from.now) }
    ensures failed { IsErrOf result SinkFault.Failed
        → Rose 1 (S.faults sink.old) (S.faults sink.new) }
    ensures faults_kept { S.faults sink.old ≤ S.faults sink.new }
{
    let mut done = 0;
    while done < from.len() {
        done += sink.write(&from[done..])?;
    }
    Ok(())
}

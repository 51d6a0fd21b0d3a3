ghost use Rattle.std.specs.Prelude.{◌≡◌, ◌≤◌, ◌↔◌, [], Some, length, Contains, IsErrOf, IfOk};
ghost use Rattle.edge_traits.specs.Told.{gained};
ghost use Rattle.edge_traits.specs.Written.{written};
ghost use Rattle.edge_traits.specs.Counts.{Counts, next_count};
ghost use Rattle.edge_traits.specs.Memory.{failing_writes, writes_made};

use crate::calls::Calls;
use crate::sink::{Sink, SinkFault};
use std::alloc::Global;

/// A sink in memory, which keeps what was written.
#[derive(Drop)]
pub struct MemorySink {
    contents: Vec<u8>,
    writes: Calls,
    faults: u64,
}

impl MemorySink {
    /// An empty sink. The writes that `failing` numbers, from 0, fail.
    pub fn of(alloc: Global, failing: Vec<u64>) -> MemorySink
        ensures empty { ⟦<MemorySink as Sink>⟧.contents result ≡ Some [] }
        ensures faults { ⟦<MemorySink as Sink>⟧.faults result ≡ 0 }
        ensures failing { failing_writes result ≡ failing.items }
        ensures made { writes_made result ≡ 0 }
    {
        MemorySink {
            contents: Vec::new(alloc),
            writes: Calls::of(failing),
            faults: 0,
        }
    }

    /// The octets written so far.
    pub fn contents(&self) -> &[u8]
        ensures { Some result.now ≡ ⟦<MemorySink as Sink>⟧.contents self.now }
    {
        self.contents.as_slice()
    }
}

impl Sink for MemorySink {
    ghost contents = { λ s. Some s.contents.items };

    ghost faults = { λ s. s.faults };

    // It takes all of the octets at once.
    fn write(&mut self, from: &[u8]) -> Result<usize, SinkFault>
        ensures whole { IfOk result (λ n. n ≡ length from.now) }
        ensures fails { IsErrOf result SinkFault.Failed
            ↔ Contains (failing_writes self.old) (writes_made self.old) }

        // What is told and counted.
        ensures told { ⟦<MemorySink as Sink>⟧.contents self.new
            ≡ gained (⟦<MemorySink as Sink>⟧.contents self.old) (written result from.now) }
        ensures faults { Counts (IsErrOf result SinkFault.Failed)
            (⟦<MemorySink as Sink>⟧.faults self.old) (⟦<MemorySink as Sink>⟧.faults self.new) }
        ensures made { writes_made self.new ≡ next_count (writes_made self.old) }
        ensures failing_kept { failing_writes self.new ≡ failing_writes self.old }
    {
        if self.writes.next_fails() {
            self.faults = self.faults.saturating_add(1);
            return Err(SinkFault::Failed);
        }
        if self.contents.extend_from_slice(from).is_err() {
            return Err(SinkFault::NoMemory);
        }
        Ok(from.len())
    }
}

ghost use Rattle.std.specs.Prelude.{◌≡◌, ◌≤◌, Some, vec_len};

use crate::calls::Calls;
use crate::source::{Failed, Source};

/// A source in memory, which gives its octets in turn.
#[derive(Drop)]
pub struct MemorySource {
    octets: Vec<u8>,
    given: usize,
    reads: Calls,
    faults: u64,
    ghost within: { given ≤ vec_len octets },
}

impl MemorySource {
    ghost use Rattle.edge_traits.specs.MemorySources.{IsNewSource, octets_left, failing_reads, reads_made};

    /// A source of these octets. The reads that `failing` numbers, from 0, fail.
    pub fn of(octets: Vec<u8>, failing: Vec<u64>) -> MemorySource
        ensures new { IsNewSource result }
        ensures left { octets_left result ≡ octets.items }
        ensures failing { failing_reads result ≡ failing.items }
        ensures made { reads_made result ≡ 0 }
        ensures rest { ⟦<MemorySource as Source>⟧.rest result ≡ Some octets.items }
        ensures faults { ⟦<MemorySource as Source>⟧.faults result ≡ 0 }
    {
        MemorySource {
            octets,
            given: 0,
            reads: Calls::of(failing),
            faults: 0,
        }
    }
}

impl Source for MemorySource {
    ghost use Rattle.std.specs.Prelude.{◌↔◌, min, drop, length, Contains, IsErr, IfOk, OnErr};
    ghost use Rattle.edge_traits.specs.Reads.{octets_read, preceded};
    ghost use Rattle.edge_traits.specs.Counts.{Counts, next_count};
    ghost use Rattle.edge_traits.specs.MemorySources.{octets_left, failing_reads, reads_made};

    ghost rest = { λ s. Some (drop s.given s.octets.items) };

    ghost faults = { λ s. s.faults };

    // It gives all that it has and that there is room for.
    fn read(&mut self, into: &mut [u8]) -> Result<usize, Failed>
        ensures all { IfOk result (λ n. n ≡ min (length into.old) (length (octets_left self.old))) }
        ensures fails { IsErr result ↔ Contains (failing_reads self.old) (reads_made self.old) }
        ensures others { IfOk result (λ n. drop n into.new ≡ drop n into.old) }
        ensures err { OnErr result (into.new ≡ into.old) }

        // What is told and counted.
        ensures told { ⟦<MemorySource as Source>⟧.rest self.old
            ≡ preceded (octets_read result into.new) (⟦<MemorySource as Source>⟧.rest self.new) }
        ensures faults { Counts (IsErr result)
            (⟦<MemorySource as Source>⟧.faults self.old)
            (⟦<MemorySource as Source>⟧.faults self.new) }
        ensures made { reads_made self.new ≡ next_count (reads_made self.old) }
        ensures failing_kept { failing_reads self.new ≡ failing_reads self.old }
    {
        if self.reads.next_fails() {
            self.faults = self.faults.saturating_add(1);
            return Err(Failed);
        }
        let count = into.len().min(self.octets.len() - self.given);
        let end = self.given + count;
        into[..count].copy_from_slice(&self.octets[self.given..end]);
        self.given = end;
        Ok(count)
    }
}

ghost use Rattle.std.specs.Prelude.{◌≡◌, [], Some, All, drop};
ghost use Rattle.edge_traits.specs.Memory.{IsNewPort, IsNewClock, IsNextPort, IsNextClock};

use crate::calls::Calls;
use crate::host::{Host, HostFault};
use crate::memory_clock::MemoryClock;
use crate::memory_file::{MemoryFile, open_first};
use crate::memory_port::MemoryPort;
use crate::memory_source::MemorySource;
use crate::salt::Salt;
use crate::source::Source;
use fixed_time::Ntp64;
use net_addr::Addr;
use std::alloc::Global;

/// A host in memory. Its binds give its ports in turn, and past their end ports of no datagrams;
/// its clocks likewise, and past their end clocks of no readings. A source has a copy of the octets
/// of the first file of its name; the file stays, so that it can be read again.
#[derive(Drop)]
pub struct MemoryHost {
    /// The files of which sources are made.
    pub files: Vec<MemoryFile>,
    /// The ports that binds are still to give, the next one first.
    pub ports: Vec<MemoryPort>,
    /// The clocks that it is still to give, the next one first.
    pub clocks: Vec<MemoryClock>,
    alloc: Global,
    origin: Ntp64,
    salt: Salt,
    calls: Calls,
    bound: Vec<Addr>,
    faults: u64,
    ghost new_ports: { All IsNewPort ports.items },
    ghost new_clocks: { All IsNewClock clocks.items },
}

impl MemoryHost {
    ghost use Rattle.edge_traits.specs.MemoryHosts.{failing_calls, calls_made};

    /// A host of these files, and of these ports and clocks, which were not called yet. The calls
    /// of `source` and `bind` that `failing` numbers, from 0 and counted together, fail.
    pub fn of(
        alloc: Global,
        files: Vec<MemoryFile>,
        ports: Vec<MemoryPort>,
        clocks: Vec<MemoryClock>,
        origin: Ntp64,
        salt: Salt,
        failing: Vec<u64>,
    ) -> MemoryHost
        requires new_ports { All IsNewPort ports.items }
        requires new_clocks { All IsNewClock clocks.items }
        ensures files { result.files.items ≡ files.items }
        ensures ports { result.ports.items ≡ ports.items }
        ensures clocks { result.clocks.items ≡ clocks.items }
        ensures binds { ⟦<MemoryHost as Host>⟧.binds result ≡ Some [] }
        ensures origin { ⟦<MemoryHost as Host>⟧.origin result ≡ origin }
        ensures salt { ⟦<MemoryHost as Host>⟧.salt result ≡ salt }
        ensures faults { ⟦<MemoryHost as Host>⟧.faults result ≡ 0 }
        ensures failing { failing_calls result ≡ failing.items }
        ensures made { calls_made result ≡ 0 }
    {
        MemoryHost {
            files,
            ports,
            clocks,
            alloc,
            origin,
            salt,
            calls: Calls::of(failing),
            bound: Vec::new(alloc),
            faults: 0,
        }
    }
}

/// The first of the ports, or one of no datagrams, now of this address.
fn first_port(alloc: Global, ports: &mut Vec<MemoryPort>, at: Addr) -> MemoryPort
    requires { All IsNewPort ports.old.items }
    ensures next { IsNextPort ports.old.items at result }
    ensures new { IsNewPort result }
    ensures later { ports.new.items ≡ drop 1 ports.old.items }
    ensures later_new { All IsNewPort ports.new.items }
{
    if ports.is_empty() {
        MemoryPort::of(alloc, Vec::new(alloc), Vec::new(alloc)).bound_at(at)
    } else {
        ports.remove(0).bound_at(at)
    }
}

/// The first of the clocks, or one of no readings.
fn first_clock(alloc: Global, clocks: &mut Vec<MemoryClock>) -> MemoryClock
    requires { All IsNewClock clocks.old.items }
    ensures next { IsNextClock clocks.old.items result }
    ensures new { IsNewClock result }
    ensures later { clocks.new.items ≡ drop 1 clocks.old.items }
    ensures later_new { All IsNewClock clocks.new.items }
{
    if clocks.is_empty() {
        MemoryClock::of(Vec::new(alloc))
    } else {
        clocks.remove(0)
    }
}

impl Host for MemoryHost {
    ghost use Rattle.std.specs.Prelude.{◌≤◌, ◌↔◌, ◌⊎◌, None, Contains, IsErrOf, IfSome, IfOk, OnOk, OnErr};
    ghost use Rattle.edge_traits.specs.Told.{gained};
    ghost use Rattle.edge_traits.specs.Binds.{bound};
    ghost use Rattle.edge_traits.specs.Counts.{Counts, next_count};
    ghost use Rattle.edge_traits.specs.MemoryHosts.{failing_calls, calls_made};
    ghost use Rattle.edge_traits.specs.MemoryFiles.{IsSourceOf, file_named, octets_named};

    type P = MemoryPort;

    type C = MemoryClock;

    type S = MemorySource;

    ghost binds = { λ h. Some h.bound.items };

    ghost files = { λ h. octets_named h.files.items };

    ghost faults = { λ h. h.faults };

    ghost origin = { λ h. h.origin };

    ghost salt = { λ h. h.salt };

    fn bind(&mut self, at: &Addr) -> Result<MemoryPort, HostFault>
        ensures port { IfOk result (λ p. IsNextPort self.old.ports.items at.now p) }
        ensures port_new { IfOk result (λ p. IsNewPort p) }
        ensures ports { OnOk result (self.new.ports.items ≡ drop 1 self.old.ports.items) }
        ensures ports_kept { OnErr result (self.new.ports.items ≡ self.old.ports.items) }
        ensures fails { IsErrOf result HostFault.Failed
            ↔ Contains (failing_calls self.old) (calls_made self.old) }

        // What is told and counted.
        ensures told { ⟦<MemoryHost as Host>⟧.binds self.new
            ≡ gained (⟦<MemoryHost as Host>⟧.binds self.old) (bound result at.now) }
        ensures faults { Counts (IsErrOf result HostFault.Failed)
            (⟦<MemoryHost as Host>⟧.faults self.old) (⟦<MemoryHost as Host>⟧.faults self.new) }
        ensures made { calls_made self.new ≡ next_count (calls_made self.old) }

        // The host stays the one that it is.
        ensures failing_kept { failing_calls self.new ≡ failing_calls self.old }
        ensures file_list_kept { self.new.files.items ≡ self.old.files.items }
        ensures files_kept { ⟦<MemoryHost as Host>⟧.files self.new
            ≡ ⟦<MemoryHost as Host>⟧.files self.old }
        ensures clocks_kept { self.new.clocks.items ≡ self.old.clocks.items }
        ensures origin_kept { ⟦<MemoryHost as Host>⟧.origin self.new
            ≡ ⟦<MemoryHost as Host>⟧.origin self.old }
        ensures salt_kept { ⟦<MemoryHost as Host>⟧.salt self.new
            ≡ ⟦<MemoryHost as Host>⟧.salt self.old }
    {
        if self.calls.next_fails() {
            self.faults = self.faults.saturating_add(1);
            return Err(HostFault::Failed);
        }
        if self.bound.push(*at).is_err() {
            return Err(HostFault::NoMemory);
        }
        Ok(first_port(self.alloc, &mut self.ports, *at))
    }

    fn source(&mut self, name: &str) -> Result<MemorySource, HostFault>
        ensures source { IfOk result (λ s.
            IfSome (file_named self.old.files.items name.now) (λ file. IsSourceOf file s)) }
        ensures source_rest { IfOk result (λ s. ⟦<MemorySource as Source>⟧.rest s
            ≡ ⟦<MemoryHost as Host>⟧.files self.old name.now) }
        ensures source_faults { IfOk result (λ s. ⟦<MemorySource as Source>⟧.faults s ≡ 0) }
        ensures fails { IsErrOf result HostFault.Failed
            ↔ (Contains (failing_calls self.old) (calls_made self.old)
            ⊎ (file_named self.old.files.items name.now ≡ None)) }

        // What is counted.
        ensures faults { Counts (IsErrOf result HostFault.Failed)
            (⟦<MemoryHost as Host>⟧.faults self.old) (⟦<MemoryHost as Host>⟧.faults self.new) }
        ensures made { calls_made self.new ≡ next_count (calls_made self.old) }

        // The host stays the one that it is.
        ensures failing_kept { failing_calls self.new ≡ failing_calls self.old }
        ensures file_list_kept { self.new.files.items ≡ self.old.files.items }
        ensures files_kept { ⟦<MemoryHost as Host>⟧.files self.new
            ≡ ⟦<MemoryHost as Host>⟧.files self.old }
        ensures ports_kept { self.new.ports.items ≡ self.old.ports.items }
        ensures clocks_kept { self.new.clocks.items ≡ self.old.clocks.items }
        ensures binds_kept { ⟦<MemoryHost as Host>⟧.binds self.new
            ≡ ⟦<MemoryHost as Host>⟧.binds self.old }
        ensures origin_kept { ⟦<MemoryHost as Host>⟧.origin self.new
            ≡ ⟦<MemoryHost as Host>⟧.origin self.old }
        ensures salt_kept { ⟦<MemoryHost as Host>⟧.salt self.new
            ≡ ⟦<MemoryHost as Host>⟧.salt self.old }
    {
        let opened = if self.calls.next_fails() {
            Err(HostFault::Failed)
        } else {
            open_first(self.files.as_slice(), name)
        };
        if matches!(opened, Err(HostFault::Failed)) {
            self.faults = self.faults.saturating_add(1);
        }
        opened
    }

    fn clock(&mut self) -> MemoryClock
        ensures clock { IsNextClock self.old.clocks.items result }
        ensures clock_new { IsNewClock result }
        ensures clocks { self.new.clocks.items ≡ drop 1 self.old.clocks.items }

        // The rest stays.
        ensures file_list_kept { self.new.files.items ≡ self.old.files.items }
        ensures files_kept { ⟦<MemoryHost as Host>⟧.files self.new
            ≡ ⟦<MemoryHost as Host>⟧.files self.old }
        ensures ports_kept { self.new.ports.items ≡ self.old.ports.items }
        ensures failing_kept { failing_calls self.new ≡ failing_calls self.old }
        ensures made_kept { calls_made self.new ≡ calls_made self.old }
        ensures binds_kept { ⟦<MemoryHost as Host>⟧.binds self.new
            ≡ ⟦<MemoryHost as Host>⟧.binds self.old }
        ensures faults_same { ⟦<MemoryHost as Host>⟧.faults self.new
            ≡ ⟦<MemoryHost as Host>⟧.faults self.old }
        ensures origin_kept { ⟦<MemoryHost as Host>⟧.origin self.new
            ≡ ⟦<MemoryHost as Host>⟧.origin self.old }
        ensures salt_kept { ⟦<MemoryHost as Host>⟧.salt self.new
            ≡ ⟦<MemoryHost as Host>⟧.salt self.old }
    {
        first_clock(self.alloc, &mut self.clocks)
    }

    fn origin(&mut self) -> Ntp64
        ensures origin { result ≡ ⟦<MemoryHost as Host>⟧.origin self.old }
        ensures kept { self.new ≡ self.old }
    {
        self.origin
    }

    fn salt(&mut self) -> Salt
        ensures salt { result ≡ ⟦<MemoryHost as Host>⟧.salt self.old }
        ensures kept { self.new ≡ self.old }
    {
        self.salt
    }
}

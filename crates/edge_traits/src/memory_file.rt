ghost use Rattle.std.specs.Prelude.{◌≡◌, ◌↔◌, None, IfSome, IfOk, IsErrOf, OnOk};
ghost use Rattle.edge_traits.specs.MemoryFiles.{IsSourceOf, file_named};

use crate::host::HostFault;
use crate::memory_source::MemorySource;
use crate::text::Name;
use std::alloc::AllocError;

/// A file of a host in memory.
#[derive(Drop)]
pub struct MemoryFile {
    /// Its name.
    pub name: Name,
    /// Its octets.
    pub octets: Vec<u8>,
    /// The numbers of the reads that fail of each source of it, from 0.
    pub failing: Vec<u64>,
}

impl MemoryFile {
    /// A source of a copy of its octets.
    fn open(&self) -> Result<MemorySource, AllocError>
        ensures { IfOk result (λ s. IsSourceOf self.now s) }
    {
        Ok(MemorySource::of(self.octets.clone()?, self.failing.clone()?))
    }
}

/// A source of the first of the files that has this name. It fails where there is none.
pub(crate) fn open_first(files: &[MemoryFile], name: &str) -> Result<MemorySource, HostFault>
    ensures source { IfOk result (λ s.
        IfSome (file_named files.now name.now) (λ file. IsSourceOf file s)) }
    ensures fails { IsErrOf result HostFault.Failed ↔ (file_named files.now name.now ≡ None) }
{
    for file in files {
        if file.name.as_slice() == name.as_bytes() {
            return file.open().map_err(|_| HostFault::NoMemory);
        }
    }
    Err(HostFault::Failed)
}

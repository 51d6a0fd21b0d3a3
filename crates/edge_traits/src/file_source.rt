ghost use Rattle.std.specs.Prelude.{◌≡◌};

use crate::source::{Failed, Source};
use std::io::Read;

/// The most octets of one read of a file.
const PIECE: usize = 4096;

/// A source of the octets of an open file. It tells nothing of them. A read that the system
/// interrupts counts as one that failed.
#[derive(Drop)]
pub struct FileSource<F> {
    file: F,
    // A read lands here, since std does not say what a read leaves past its count, or as it fails.
    received: [u8; 4096],
    faults: u64,
}

impl<F: Read> FileSource<F> {
    /// The source of this file from its present place on.
    pub fn of(file: F) -> FileSource<F>
        ensures { ⟦<FileSource<F> as Source>⟧.faults result ≡ 0 }
    {
        FileSource {
            file,
            received: [0; PIECE],
            faults: 0,
        }
    }
}

impl<F: Read> Source for FileSource<F> {
    ghost use Rattle.std.specs.Prelude.{None};

    ghost rest = { λ _. None };

    ghost faults = { λ s. s.faults };

    fn read(&mut self, into: &mut [u8]) -> Result<usize, Failed> {
        let most = into.len().min(PIECE);
        let received = &mut self.received[..];
        match self.file.read(&mut received[..most]) {
            Ok(count) => {
                into[..count].copy_from_slice(&self.received[..count]);
                Ok(count)
            }
            Err(_) => {
                self.faults = self.faults.saturating_add(1);
                Err(Failed)
            }
        }
    }
}

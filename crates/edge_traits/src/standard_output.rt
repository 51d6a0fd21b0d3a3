ghost use Rattle.std.specs.Prelude.{◌≡◌};

use crate::sink::{Sink, SinkFault};

/// The process's standard output. Nothing is kept back, so a write that fails is seen at once.
/// It tells nothing of what was written.
#[derive(Drop)]
pub struct StandardOutput<S> {
    system: S,
    faults: u64,
}

impl<S: Print> StandardOutput<S> {
    /// The standard output of this system.
    pub fn new(system: S) -> StandardOutput<S>
        ensures { ⟦<StandardOutput<S> as Sink>⟧.faults result ≡ 0 }
    {
        StandardOutput { system, faults: 0 }
    }
}

impl<S: Print> Sink for StandardOutput<S> {
    ghost use Rattle.std.specs.Prelude.{None};

    ghost contents = { λ _. None };

    ghost faults = { λ o. o.faults };

    fn write(&mut self, from: &[u8]) -> Result<usize, SinkFault> {
        match self.system.write_some(from) {
            Ok(written) if written > 0 || from.is_empty() => Ok(written),
            _ => {
                self.faults = self.faults.saturating_add(1);
                Err(SinkFault::Failed)
            }
        }
    }
}

ghost use Rattle.std.specs.Prelude.{◌≡◌, ◌<◌, ◌≤◌, Some, length, slice_get};
ghost use Rattle.responders.specs.Workers.{AreWorkers};
ghost use Rattle.responders.specs.declared.workers.TheConstants.{MAX_WORKERS};

use std::marker::Model;
use worker::Worker;

/// The most workers of a session.
pub const MAX_WORKERS: usize = 8;

/// The workers of a session: one at least and eight at most, numbered from 0 in their order.
#[derive(Drop)]
pub struct Workers<P, C> {
    pub(crate) list: Vec<Worker<P, C>>,
}

impl<P, C> Model for Workers<P, C> {
    ghost use Rattle.std.specs.Prelude.{List};
    ghost use Rattle.responders.specs.Workers.{AreWorkers};
    ghost use Rattle.worker.specs.Workers.{WorkerView};

    ghost Value = { List (WorkerView P C) };

    ghost view = { λ w. w.list.items };

    ghost invariant = { λ w. AreWorkers w.list.items };
}

impl<P, C> Workers<P, C> {
    /// These workers.
    pub fn of(list: Vec<Worker<P, C>>) -> Workers<P, C>
        requires { AreWorkers list.items }
        ensures { result ≡ list.items }
    {
        Workers { list }
    }

    /// How many there are.
    pub fn len(&self) -> usize
        ensures len { result ≡ length self.now }
        ensures some { 1 ≤ result }
        ensures few { result ≤ MAX_WORKERS }
    {
        self.list.len()
    }

    /// The worker of this number.
    pub fn get(&self, who: usize) -> &Worker<P, C>
        requires { who < length self.now }
        ensures { slice_get self.now who ≡ Some result.now }
    {
        &self.list[who]
    }
}

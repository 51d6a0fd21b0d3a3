ghost use Rattle.std.specs.Prelude.{◌≡◌, ◌+◌, ◌-◌, ◌<◌, ◌^◌, [], ◌∷◌, length};
ghost use Rattle.std.specs.List.{AllByRecursion, count_by};
ghost use Rattle.drawn_session.specs.Counts.{counts_of, gives_time, is_control, is_silent};
ghost use Rattle.drawn_session.specs.Ports.{IsDrawnPort};
ghost use Rattle.worker.specs.declared.act.Act.{Act};

use crate::port::DrawnPort;
use edge_traits::MemoryClock;
use responders::Session;
use worker::{Act, ActKind, VerdictKind};

/// How much was done in a session, and how many clients its client list has.
#[derive(Clone, Copy, Debug, PartialEq, Eq)]
pub struct Counts {
    /// Requests that got the time.
    pub times: u64,
    /// Control requests.
    pub controls: u64,
    /// Datagrams that were not heard.
    pub silent: u64,
    /// Rows of the client list.
    pub clients: u64,
}

/// How much was done in a session of two workers.
pub(crate) fn counts_of(session: &Session<DrawnPort, MemoryClock>) -> Counts
    requires { length session.now.workers ≡ 2 }
    ensures counts { result ≡ counts_of session.now }
    ensures ports { AllByRecursion (λ worker. IsDrawnPort worker.port) session.now.workers }
{
    let first = session.workers.get(0);
    let second = session.workers.get(1);
    let _first_events = first.port().events();
    let _second_events = second.port().events();
    let mut counts = Counts {
        times: 0,
        controls: 0,
        silent: 0,
        clients: u64::from(session.book.listed()),
    };
    counts.add_all(first.acts());
    counts.add_all(second.acts());
    counts
}

impl Counts {
    /// Counts these acts too.
    fn add_all(&mut self, acts: &[Act])
        requires times { self.old.times < 2 ^ 63 }
        requires controls { self.old.controls < 2 ^ 63 }
        requires silent { self.old.silent < 2 ^ 63 }
        ensures times { self.new.times
            ≡ self.old.times + count_by (λ act. gives_time act.kind) acts.now }
        ensures controls { self.new.controls
            ≡ self.old.controls + count_by (λ act. is_control act.kind) acts.now }
        ensures silent { self.new.silent
            ≡ self.old.silent + count_by (λ act. is_silent act.kind) acts.now }
        ensures clients { self.new.clients ≡ self.old.clients }
    {
        for act in acts {
            self.add(act);
        }
    }

    /// Counts this act too.
    fn add(&mut self, act: &Act)
        requires times { self.old.times < 2 ^ 64 - 1 }
        requires controls { self.old.controls < 2 ^ 64 - 1 }
        requires silent { self.old.silent < 2 ^ 64 - 1 }
        ensures times { self.new.times
            ≡ self.old.times + count_by (λ act. gives_time act.kind) (act.now ∷ []) }
        ensures controls { self.new.controls
            ≡ self.old.controls + count_by (λ act. is_control act.kind) (act.now ∷ []) }
        ensures silent { self.new.silent
            ≡ self.old.silent + count_by (λ act. is_silent act.kind) (act.now ∷ []) }
        ensures clients { self.new.clients ≡ self.old.clients }
    {
        match act.kind {
            ActKind::Time {
                verdict: VerdictKind::Served,
                ..
            } => self.times += 1,
            ActKind::Control { .. } => self.controls += 1,
            ActKind::Silent(_) => self.silent += 1,
            ActKind::Time { .. } | ActKind::Read { .. } | ActKind::Dropped(_) => {}
        }
    }
}

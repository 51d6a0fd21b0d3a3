ghost use Rattle.std.specs.Prelude.{◌≡◌, ◌≤◌, ◌<◌, ◌↔◌, ℕ, ◌+◌, List, [], length, IsTrue, IfOk, OnOk, OnErr, IfSome, IsSome, None};
ghost use Rattle.std.specs.Option.{option_copied};
ghost use Rattle.recency.specs.Arrivals.{has_new_row, touch_answer, touched_row, touched_rows};
ghost use Rattle.recency.specs.Rows.{AreBefore, AreRows, find_row, newer, newest, told_rows};
ghost use Rattle.recency.specs.Sweeps.{swept_rows};
ghost use Rattle.recency.specs.declared.visit.Touched.TheVariants.{Untracked};

use crate::limits::Limits;
use crate::row::Row;
use crate::steps::Steps;
use crate::visit::{Touched, Visit};
use net_addr::Ip;
use std::alloc::{AllocError, Global};
use std::sync::ledger::Ledger;

/// A client list: one row a client, oldest last arrival first. Stamps and moments are in 32.32
/// seconds. One step is one read of one row.
pub trait Recency: Drop {
    ghost use Rattle.recency.specs.declared.limits.Limits.{Limits};
    ghost use Rattle.recency.specs.declared.row.Row.{Row};

    /// Its rows, oldest first.
    ghost rows: { Self → List Row };

    /// Its limits.
    ghost limits: { Self → Limits };

    /// The most steps of a touch.
    ghost touch_steps: { Self → ℕ };

    /// The most steps of a sweep.
    ghost sweep_steps: { Self → ℕ };

    /// The most steps of a look-up by address.
    ghost find_steps: { Self → ℕ };

    /// The most steps to the row after a client's.
    ghost newer_steps: { Self → ℕ };

    /// The empty list under these limits.
    fn begin(alloc: Global, under: Limits) -> Result<Self, AllocError>
        ensures rows { IfOk result (λ list. rows list ≡ []) }
        ensures limits { IfOk result (λ list. limits list ≡ under) };

    /// Takes an arrival in: a listed client's row moves to the end, another client's is added, is
    /// put in the place of the oldest, or is not tracked. A listed client takes no memory.
    fn touch<L: Ledger>(
        &mut self,
        visit: &Visit,
        stamp: u64,
        steps: &mut Steps<L>,
    ) -> Result<Touched, AllocError>
        requires { AreBefore stamp (rows self.old) }
        ensures answer { IfOk result (λ answer.
            answer ≡ touch_answer (limits self.old) (rows self.old) visit.now stamp) }
        ensures rows { OnOk result (
            rows self.new ≡ touched_rows (limits self.old) (rows self.old) visit.now stamp) }

        // The client's row is the newest, or it has none, exactly where it isn't tracked.
        ensures client { IfOk result (λ answer.
            find_row (rows self.new) visit.now.ip ≡ touched_row answer (rows self.new)) }
        ensures untracked { IfOk result (λ answer.
            (answer ≡ Untracked) ↔ (find_row (rows self.new) visit.now.ip ≡ None)) }

        // Memory is wanted for a new row only.
        ensures memory { OnErr result (IsTrue (has_new_row (
            touch_answer (limits self.old) (rows self.old) visit.now stamp))) }
        ensures no_memory { OnErr result (rows self.new ≡ rows self.old) }

        // It stays a client list under its limits, and the steps are counted.
        ensures limits { limits self.new ≡ limits self.old }
        ensures kept { AreRows (limits self.new) (rows self.new) }
        ensures counted { steps.old ≤ steps.new }
        ensures cost { steps.new ≤ steps.old + touch_steps self.old };

    /// Keeps with a listed client when it was told to slow down. Takes no memory.
    fn tell(&mut self, ip: &Ip, stamp: u64)
        requires { IsSome (find_row (rows self.old) ip.now) }
        ensures rows { rows self.new ≡ told_rows (rows self.old) ip.now stamp }
        ensures limits { limits self.new ≡ limits self.old }
        ensures kept { AreRows (limits self.new) (rows self.new) };

    /// Drops the oldest rows that have aged at a moment, down to mindepth, and says how many went.
    /// Takes no memory.
    fn sweep<L: Ledger>(&mut self, moment: u64, steps: &mut Steps<L>) -> u32
        ensures rows { rows self.new ≡ swept_rows (limits self.old) (rows self.old) moment }
        ensures gone { result + length (rows self.new) ≡ length (rows self.old) }

        // It stays a client list under its limits. Each row that went is read, and one more.
        ensures limits { limits self.new ≡ limits self.old }
        ensures kept { AreRows (limits self.new) (rows self.new) }
        ensures counted { steps.old + result ≤ steps.new }
        ensures one_more { steps.new ≤ steps.old + result + 1 }
        ensures cost { steps.new ≤ steps.old + sweep_steps self.old };

    /// A client's row, or None where it isn't listed. Takes no memory.
    fn find<L: Ledger>(&self, ip: &Ip, steps: &mut Steps<L>) -> Option<Row>
        ensures row { result ≡ find_row (rows self.now) ip.now }
        ensures read { IsSome result → steps.old < steps.new }
        ensures counted { steps.old ≤ steps.new }
        ensures cost { steps.new ≤ steps.old + find_steps self.now };

    /// The row after that of a listed client, or the oldest row where none is named; None where
    /// there is no such row. Takes no memory.
    fn newer_than<L: Ledger>(&self, ip: Option<&Ip>, steps: &mut Steps<L>) -> Option<Row>
        requires { IfSome (option_copied ip) (λ ip. IsSome (find_row (rows self.now) ip)) }
        ensures row { result ≡ newer (rows self.now) (option_copied ip.entry) }
        ensures read { IsSome result → steps.old < steps.new }
        ensures counted { steps.old ≤ steps.new }
        ensures cost { steps.new ≤ steps.old + newer_steps self.now };

    /// How many rows there are. The rows are a client list's.
    fn len(&self) -> u32
        ensures len { result ≡ length (rows self.now) }
        ensures kept { AreRows (limits self.now) (rows self.now) };

    /// The newest row, or None where the list is empty.
    fn newest(&self) -> Option<Row>
        ensures { result ≡ newest (rows self.now) };

    /// The limits that it began with.
    fn limits(&self) -> Limits
        ensures { result ≡ limits self.now };
}

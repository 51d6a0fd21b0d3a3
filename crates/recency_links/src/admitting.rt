//! What becomes of a client without a row.
ghost use Rattle.std.specs.Prelude.{◌≡◌, ◌≤◌, ◌+◌, ◌-◌, ◌^◌, length, nat_lt, if◌then◌else◌, IfOk, OnOk, OnErr, IsTrue, None};
ghost use Rattle.recency.specs.Arrivals.{HasRoom, IsTouched, admitted, has_new_row, new_row, touch_answer};
ghost use Rattle.recency.specs.Rows.{AreRows, IsDistinct, find_row};
ghost use Rattle.recency_links.specs.Admissions.{admission_by};
ghost use Rattle.recency_links.specs.Lists.{IsLinked, IsList, rows_of};

use crate::links::{Links, add, replace};
use crate::reading::oldest_in;
use recency::{Limits, Row, Steps, Touched, Visit};
use std::alloc::AllocError;
use std::sync::ledger::Ledger;

/// Takes in an arrival of a client without a row.
pub(crate) fn admit<L: Ledger>(
    limits: &Limits,
    links: &mut Links,
    visit: &Visit,
    stamp: u64,
    steps: &mut Steps<L>,
) -> Result<Touched, AllocError>
    requires linked { IsLinked limits.now links.old }
    requires absent { find_row (rows_of links.old) visit.now.ip ≡ None }
    ensures list { IsList links.new }
    ensures touched { IfOk result (λ answer.
        IsTouched limits.now (rows_of links.old) visit.now stamp answer (rows_of links.new)) }
    ensures memory { OnErr result (IsTrue (has_new_row (
        touch_answer limits.now (rows_of links.old) visit.now stamp))) }
    ensures no_memory { OnErr result (rows_of links.new ≡ rows_of links.old) }
    ensures nodes { length links.new.nodes.items ≡ length links.old.nodes.items }
    ensures counted { steps.old ≤ steps.new }
    ensures cost { steps.new ≤ steps.old + 2 }
{
    let oldest = oldest_in(links, steps);
    let answer = admission(limits, &oldest, links.count, stamp);
    follow(links, &answer, visit, stamp, steps)?;
    Ok(answer)
}

/// The answer to a client without a row, by the oldest row and the number of rows.
fn admission(limits: &Limits, oldest: &Option<Row>, count: u32, stamp: u64) -> Touched
    ensures { result ≡ admission_by limits.now oldest.now count stamp }
{
    if count < limits.mindepth {
        return Touched::Added;
    }
    let Some(oldest) = oldest else {
        return if_room(limits, count);
    };
    let age = stamp.saturating_sub(oldest.last);
    if age >= limits.maxage {
        return Touched::Replaced(oldest.ip);
    }
    if count < limits.maxdepth {
        return Touched::Added;
    }
    if age >= limits.minage {
        return Touched::Replaced(oldest.ip);
    }
    Touched::Untracked
}

/// The answer where there is no oldest row.
fn if_room(limits: &Limits, count: u32) -> Touched
    ensures { result ≡ (if nat_lt count limits.now.maxdepth then Touched.Added else Touched.Untracked) }
{
    if count < limits.maxdepth {
        return Touched::Added;
    }
    Touched::Untracked
}

/// Follows the answer to a client without a row.
fn follow<L: Ledger>(
    links: &mut Links,
    answer: &Touched,
    visit: &Visit,
    stamp: u64,
    steps: &mut Steps<L>,
) -> Result<(), AllocError>
    requires list { IsList links.old }
    requires distinct { IsDistinct (rows_of links.old) }
    requires absent { find_row (rows_of links.old) visit.now.ip ≡ None }
    requires room { HasRoom answer.now links.old.count (length links.old.nodes.items - 1) }
    requires most { length links.old.nodes.items ≤ 2 ^ 32 }
    ensures list { IsList links.new }
    ensures rows { OnOk result (
        rows_of links.new ≡ admitted answer.now (rows_of links.old) (new_row visit.now stamp)) }
    ensures memory { OnErr result (IsTrue (has_new_row answer.now)) }
    ensures no_memory { OnErr result (rows_of links.new ≡ rows_of links.old) }
    ensures nodes { length links.new.nodes.items ≡ length links.old.nodes.items }
    ensures counted { steps.old ≤ steps.new }
    ensures cost { steps.new ≤ steps.old + 1 }
{
    match answer {
        Touched::Known | Touched::Untracked => Ok(()),
        Touched::Added => add(links, visit, stamp, steps),
        Touched::Replaced(_) => replace(links, visit, stamp, steps),
    }
}

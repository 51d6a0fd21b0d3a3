//! Sweeps of a client list of linked nodes.
ghost use Rattle.std.specs.Prelude.{◌≡◌, ◌≤◌, ◌+◌, length, IsTrue, IsFalse, if◌then◌else◌};
ghost use Rattle.recency.specs.Rows.{AreRows};
ghost use Rattle.recency.specs.Sweeps.{is_dropped, swept_rows};
ghost use Rattle.recency_links.specs.Lists.{IsLinked, rows_of};

use crate::links::{Links, drop_oldest};
use crate::node::read;
use recency::{Limits, Row, Steps};
use std::sync::ledger::Ledger;

/// Drops the oldest rows that have aged at a moment, down to mindepth, and says how many went.
pub(crate) fn sweep_in<L: Ledger>(
    links: &mut Links,
    limits: &Limits,
    moment: u64,
    steps: &mut Steps<L>,
) -> u32
    requires { IsLinked limits.now links.old }
    ensures linked { IsLinked limits.now links.new }
    ensures rows { rows_of links.new ≡ swept_rows limits.now (rows_of links.old) moment }
    ensures gone { result + links.new.count ≡ links.old.count }
    ensures counted { steps.old + result ≤ steps.new }
    ensures one_more { steps.new ≤ steps.old + result + 1 }
{
    let count = links.count;
    for gone in 0..count {
        if !drop_aged(links, limits, moment, steps) {
            return gone;
        }
    }
    count
}

/// Drops the oldest row where a sweep drops it, and says whether it did.
fn drop_aged<L: Ledger>(
    links: &mut Links,
    limits: &Limits,
    moment: u64,
    steps: &mut Steps<L>,
) -> bool
    requires { IsLinked limits.now links.old }
    ensures linked { IsLinked limits.now links.new }
    ensures swept { swept_rows limits.now (rows_of links.new) moment
        ≡ swept_rows limits.now (rows_of links.old) moment }
    ensures stays { IsFalse result → rows_of links.new
        ≡ swept_rows limits.now (rows_of links.old) moment }
    ensures count { links.new.count + (if result then 1 else 0) ≡ links.old.count }
    ensures counted { steps.old + (if result then 1 else 0) ≤ steps.new }
    ensures cost { steps.new ≤ steps.old + 1 }
{
    if links.count == 0 {
        return false;
    }
    let number = links.nodes[0].newer;
    let node = read(&links.nodes, number, steps);
    if !is_dropped(limits, &node.row, links.count, moment) {
        return false;
    }
    drop_oldest(links, number, &node);
    true
}

/// Whether a sweep drops the oldest of so many rows.
fn is_dropped(limits: &Limits, row: &Row, count: u32, moment: u64) -> bool
    ensures { result ≡ is_dropped limits.now row.now count moment }
{
    count > limits.mindepth && moment.saturating_sub(row.last) >= limits.maxage
}

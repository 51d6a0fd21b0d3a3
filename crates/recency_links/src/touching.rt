//! What an arrival makes of a client list of linked nodes.
ghost use Rattle.std.specs.Prelude.{◌≡◌, ◌≤◌, ◌+◌, length, IfOk, OnErr, IsSome, IsTrue};
ghost use Rattle.recency.specs.Arrivals.{IsTouched, has_new_row, touch_answer};
ghost use Rattle.recency.specs.Rows.{IsDistinct, find_row, told_rows};
ghost use Rattle.recency_links.specs.Lists.{IsLinked, IsList, rows_of};

use crate::admitting::admit;
use crate::index::number_of;
use crate::links::{Links, renew, tell};
use net_addr::Ip;
use recency::{Limits, Steps, Touched, Visit};
use std::alloc::AllocError;
use std::sync::ledger::Ledger;

/// Takes an arrival in: a listed client's row moves to the newest end, another client is admitted.
pub(crate) fn arrive<L: Ledger>(
    limits: &Limits,
    links: &mut Links,
    visit: &Visit,
    stamp: u64,
    steps: &mut Steps<L>,
) -> Result<Touched, AllocError>
    requires { IsLinked limits.now links.old }
    ensures list { IsList links.new }
    ensures touched { IfOk result (λ answer.
        IsTouched limits.now (rows_of links.old) visit.now stamp answer (rows_of links.new)) }
    ensures memory { OnErr result (IsTrue (has_new_row (
        touch_answer limits.now (rows_of links.old) visit.now stamp))) }
    ensures no_memory { OnErr result (rows_of links.new ≡ rows_of links.old) }
    ensures nodes { length links.new.nodes.items ≡ length links.old.nodes.items }
    ensures counted { steps.old ≤ steps.new }
    ensures cost { steps.new ≤ steps.old + 2 }
{
    match number_of(&links.index, &visit.ip) {
        None => admit(limits, links, visit, stamp, steps),
        Some(number) => {
            renew(links, number, visit, stamp, steps);
            Ok(Touched::Known)
        }
    }
}

/// Keeps with a listed client when it was told to slow down.
pub(crate) fn tell_in(links: &mut Links, ip: &Ip, stamp: u64)
    requires list { IsList links.old }
    requires distinct { IsDistinct (rows_of links.old) }
    requires listed { IsSome (find_row (rows_of links.old) ip.now) }
    ensures list { IsList links.new }
    ensures rows { rows_of links.new ≡ told_rows (rows_of links.old) ip.now stamp }
    ensures nodes { length links.new.nodes.items ≡ length links.old.nodes.items }
{
    match number_of(&links.index, ip) {
        None => {}
        Some(number) => tell(links, number, ip, stamp),
    }
}

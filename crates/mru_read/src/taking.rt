ghost use Rattle.std.specs.Prelude.{◌≡◌, ◌≤◌, ◌+◌, ◌*◌, [], Bool, if◌then◌else◌, length, option_map, IfOk};
ghost use Rattle.recency.specs.Rows.{IsDistinct, newest};
ghost use Rattle.mru_items.specs.Queries.{IsRead};
ghost use Rattle.mru_read.specs.Pages.{IsTellablePair, gone_from};
ghost use Rattle.mru_read.specs.Sizes.{IsMeasure, end_lengths, measured};
ghost use Rattle.mru_read.specs.Walks.{IsInPlace, IsTaken, place_of, start_at};

use crate::passing::next_passing;
use crate::sizes::{Measure, front_size, is_allowed, with_end, with_row};
use mru_items::{Pair, ReadRequest};
use net_addr::Ip;
use recency::{Recency, Row, Steps};
use std::alloc::{AllocError, Global};
use std::sync::ledger::Ledger;

/// The rows of a page, and whether no client that passes the filter is left behind them.
#[derive(Drop)]
pub(crate) struct Taken {
    pub(crate) rows: Vec<Row>,
    pub(crate) ended: bool,
}

/// The rows of the page that begins behind a pair that stands, or with the oldest row: each that
/// passes, as long as it is allowed. It looks one ahead, since the items that end the list count
/// for the last.
pub(crate) fn taken_rows<R: Recency, L: Ledger>(
    alloc: Global,
    list: &R,
    request: &ReadRequest,
    confirmed: &Option<Pair>,
    steps: &mut Steps<L>,
) -> Result<Taken, AllocError>
    requires distinct { IsDistinct (R.rows list.now) }
    requires read { IsRead request.now }
    requires place { IsInPlace (R.rows list.now) confirmed.now }
    requires pair { IsTellablePair confirmed.now }
    ensures taken { IfOk result (λ taken. IsTaken (R.rows list.now) request.now
        (start_at confirmed.now) taken.rows.items taken.ended) }
    ensures counted { steps.old ≤ steps.new }
    ensures cost { steps.new ≤ steps.old
        + (gone_from (R.rows list.now) request.now 0 (start_at confirmed.now) + 2)
        * R.newer_steps list.now }
{
    let newest = newest_last(list);
    let mut rows = Vec::new(alloc);
    let mut size = front_size(confirmed);
    let mut next = next_passing(list, &request.filter, place_of(confirmed), steps);
    while let Some(row) = next {
        let grown = with_row(&size, rows.len(), &row);
        if !is_allowed(request, rows.len() + 1, &grown) {
            return Ok(Taken { rows, ended: false });
        }
        next = next_passing(list, &request.filter, Some(row.ip), steps);
        let told = told_size(&grown, next.is_none(), &newest);
        if !is_allowed(request, rows.len() + 1, &told) {
            return Ok(Taken { rows, ended: false });
        }
        rows.push(row)?;
        size = grown;
    }
    Ok(Taken { rows, ended: true })
}

/// The client of a pair.
fn place_of(confirmed: &Option<Pair>) -> Option<Ip>
    ensures { result ≡ place_of confirmed.now }
{
    match confirmed {
        None => None,
        Some(pair) => Some(pair.addr.ip),
    }
}

/// The items of a page with rows that take so much, and with its end where they are the last.
fn told_size(grown: &Measure, is_last: bool, newest: &Option<u64>) -> Measure
    requires { IsMeasure grown.now }
    ensures { result ≡ measured grown.now (if is_last then end_lengths newest.now else []) }
{
    if is_last {
        return with_end(grown, newest);
    }
    *grown
}

/// When the newest client of a list arrived last.
pub(crate) fn newest_last<R: Recency>(list: &R) -> Option<u64>
    ensures { result ≡ option_map (λ row. row.last) (newest (R.rows list.now)) }
{
    match list.newest() {
        None => None,
        Some(row) => Some(row.last),
    }
}

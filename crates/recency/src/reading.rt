ghost use Rattle.std.specs.Prelude.{◌≡◌, ◌≤◌, ◌+◌, min, length, drop, slice_get};
ghost use Rattle.recency.specs.Arrivals.{admission};
ghost use Rattle.recency.specs.Places.{place_of};
ghost use Rattle.recency.specs.Sweeps.{is_dropped, swept_rows};

use crate::limits::Limits;
use crate::row::Row;
use crate::steps::Steps;
use crate::visit::Touched;
use net_addr::{Ip, is_same_ip};
use std::sync::ledger::Ledger;

/// Reads the row at a place, which is one step; None where there is no such place.
pub(crate) fn row_at<L: Ledger>(rows: &[Row], place: usize, steps: &mut Steps<L>) -> Option<Row>
    ensures row { result ≡ slice_get rows.now place }
    ensures cost { steps.new ≡ steps.old + 1 }
{
    steps.tick();
    rows.get(place).copied()
}

/// How many rows stand before that of a client, or how many there are where it has none.
pub(crate) fn place_of<L: Ledger>(rows: &[Row], ip: &Ip, steps: &mut Steps<L>) -> usize
    ensures place { result ≡ place_of rows.now ip.now }
    ensures within { result ≤ length rows.now }
    ensures cost { steps.new ≡ steps.old + min (result + 1) (length rows.now) }
{
    for place in 0..rows.len() {
        let row = &rows[place];
        steps.tick();
        if is_same_ip(&row.ip, ip) {
            return place;
        }
    }
    rows.len()
}

/// The answer to a client without a row.
pub(crate) fn admission<L: Ledger>(
    limits: &Limits,
    rows: &[Row],
    stamp: u64,
    steps: &mut Steps<L>,
) -> Touched
    ensures answer { result ≡ admission limits.now rows.now stamp }
    ensures cost { steps.new ≡ steps.old + 1 }
{
    let oldest = row_at(rows, 0, steps);
    if rows.len() < limits.mindepth as usize {
        return Touched::Added;
    }
    let Some(oldest) = oldest else {
        return Touched::Added;
    };
    let age = stamp.saturating_sub(oldest.last);
    if age >= limits.maxage {
        return Touched::Replaced(oldest.ip);
    }
    if rows.len() < limits.maxdepth as usize {
        return Touched::Added;
    }
    if age >= limits.minage {
        return Touched::Replaced(oldest.ip);
    }
    Touched::Untracked
}

/// How many of the oldest rows a sweep drops.
pub(crate) fn aged<L: Ledger>(
    limits: &Limits,
    rows: &[Row],
    moment: u64,
    steps: &mut Steps<L>,
) -> usize
    ensures left { drop result rows.now ≡ swept_rows limits.now rows.now moment }
    ensures within { result ≤ length rows.now }
    ensures cost { steps.new ≡ steps.old + min (result + 1) (length rows.now) }
{
    for place in 0..rows.len() {
        let row = &rows[place];
        steps.tick();
        if !is_dropped(limits, row, rows.len() - place, moment) {
            return place;
        }
    }
    rows.len()
}

/// Whether a sweep drops the oldest of so many rows.
fn is_dropped(limits: &Limits, row: &Row, count: usize, moment: u64) -> bool
    ensures { result ≡ is_dropped limits.now row.now count moment }
{
    count > limits.mindepth as usize && moment.saturating_sub(row.last) >= limits.maxage
}

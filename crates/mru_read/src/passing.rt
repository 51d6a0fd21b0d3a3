ghost use Rattle.std.specs.Prelude.{◌≡◌, ◌≤◌, ◌+◌, ◌*◌, length, Some, None, IfSome};
ghost use Rattle.recency.specs.Rows.{IsDistinct, oldest};
ghost use Rattle.mru_read.specs.Pages.{IsTellableRow, passes};
ghost use Rattle.mru_read.specs.Walks.{IsListed, IsNext, left_after, left_behind};

use mru_items::MruFilter;
use net_addr::{Ip, write_ip};
use recency::{Recency, Row, Steps};
use std::sync::ledger::Ledger;

/// The first row that passes a filter behind that of a listed client, or of all rows where none is
/// named. It reads each row up to it.
pub(crate) fn next_passing<R: Recency, L: Ledger>(
    list: &R,
    wanted: &MruFilter,
    from: Option<Ip>,
    steps: &mut Steps<L>,
) -> Option<Row>
    requires distinct { IsDistinct (R.rows list.now) }
    requires listed { IsListed (R.rows list.now) from }
    ensures next { IsNext (R.rows list.now) wanted.now (left_after (R.rows list.now) from) result }
    ensures tellable { IfSome result IsTellableRow }
    ensures counted { steps.old ≤ steps.new }
    ensures cost { IfSome result (λ row.
        steps.new + length (left_behind (R.rows list.now) (Some row)) * R.newer_steps list.now
        ≤ steps.old + length (left_after (R.rows list.now) from) * R.newer_steps list.now) }
    ensures cost_at_end { (result ≡ None) → steps.new ≤ steps.old
        + (length (left_after (R.rows list.now) from) + 1) * R.newer_steps list.now }
{
    let mut place = from;
    while let Some(row) = row_after(list, &place, steps) {
        if passes(wanted, &row) {
            return Some(row);
        }
        place = Some(row.ip);
    }
    None
}

/// The row behind that of a listed client, or the oldest where none is named.
fn row_after<R: Recency, L: Ledger>(
    list: &R,
    place: &Option<Ip>,
    steps: &mut Steps<L>,
) -> Option<Row>
    requires { IsListed (R.rows list.now) place.now }
    ensures row { result ≡ oldest (left_after (R.rows list.now) place.now) }
    ensures tellable { IfSome result IsTellableRow }
    ensures counted { steps.old ≤ steps.new }
    ensures cost { steps.new ≤ steps.old + R.newer_steps list.now }
{
    match place {
        None => known(list.newer_than(None, steps)),
        Some(ip) => known(list.newer_than(Some(ip), steps)),
    }
}

/// A row as it was read: its numbers have their widths.
fn known(row: Option<Row>) -> Option<Row>
    ensures same { result ≡ row }
    ensures tellable { IfSome result IsTellableRow }
{
    if let Some(row) = row {
        let _ = write_ip(&row.ip);
    }
    row
}

/// Whether a client passes a filter.
fn passes(wanted: &MruFilter, row: &Row) -> bool
    ensures { result ≡ passes wanted.now row.now }
{
    if row.count < wanted.mincount || row.flags & wanted.resall != wanted.resall {
        return false;
    }
    wanted.resany == 0 || row.flags & wanted.resany != 0
}

ghost use Rattle.std.specs.Prelude.{◌≡◌};
ghost use Rattle.recency.specs.Arrivals.{new_row, row_after};

use access_rules::{ARRIVAL_SCORE, score};
use recency::{Row, Visit};

/// A listed client's row after another arrival.
pub(crate) fn row_after(row: &Row, visit: &Visit, stamp: u64) -> Row
    ensures { result ≡ row_after row.now visit.now stamp }
{
    Row {
        ip: row.ip,
        port: visit.port,
        first: row.first,
        last: stamp,
        count: row.count.saturating_add(1),
        mv: visit.mv,
        flags: visit.flags,
        score: score(&visit.rate, row.score, stamp.saturating_sub(row.last)),
        told: row.told,
    }
}

/// The row of a client that had none.
pub(crate) fn new_row(visit: &Visit, stamp: u64) -> Row
    ensures { result ≡ new_row visit.now stamp }
{
    Row {
        ip: visit.ip,
        port: visit.port,
        first: stamp,
        last: stamp,
        count: 1,
        mv: visit.mv,
        flags: visit.flags,
        score: ARRIVAL_SCORE,
        told: None,
    }
}

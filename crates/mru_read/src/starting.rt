ghost use Rattle.std.specs.Prelude.{◌≡◌, ◌≤◌, ◌+◌, ◌*◌, length, find};
ghost use Rattle.recency.specs.Rows.{IsDistinct};
ghost use Rattle.mru_read.specs.Pages.{is_row_of, stands_in};

use mru_items::Pair;
use net_addr::is_same_ip;
use recency::{Recency, Row, Steps};
use std::sync::ledger::Ledger;

/// The first of the pairs that stands in a list. It takes a look-up for each pair up to it.
pub(crate) fn first_in_place<R: Recency, L: Ledger>(
    list: &R,
    pairs: &[Pair],
    steps: &mut Steps<L>,
) -> Option<Pair>
    requires { IsDistinct (R.rows list.now) }
    ensures pair { result ≡ find (stands_in (R.rows list.now)) pairs.now }
    ensures counted { steps.old ≤ steps.new }
    ensures cost { steps.new ≤ steps.old + length pairs.now * R.find_steps list.now }
{
    for pair in pairs {
        if is_in_place(list, pair, steps) {
            return Some(*pair);
        }
    }
    None
}

/// Whether a pair stands in a list: its client's last arrival came from this port, at this time.
fn is_in_place<R: Recency, L: Ledger>(list: &R, pair: &Pair, steps: &mut Steps<L>) -> bool
    requires { IsDistinct (R.rows list.now) }
    ensures stands { result ≡ stands_in (R.rows list.now) pair.now }
    ensures counted { steps.old ≤ steps.new }
    ensures cost { steps.new ≤ steps.old + R.find_steps list.now }
{
    match list.find(&pair.addr.ip, steps) {
        None => false,
        Some(row) => is_row_of(pair, &row),
    }
}

/// Whether a row is that of a pair.
fn is_row_of(pair: &Pair, row: &Row) -> bool
    ensures { result ≡ is_row_of pair.now row.now }
{
    is_same_ip(&row.ip, &pair.addr.ip) && row.port == pair.addr.port && row.last == pair.last
}

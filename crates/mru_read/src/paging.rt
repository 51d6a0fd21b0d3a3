ghost use Rattle.std.specs.Prelude.{◌≡◌, ◌↔◌, ◌⊎◌, ◌+◌, ◌*◌, ◌≤◌, ◌&&◌, not, nat_lt, is_some, true, Some, None, Err, length, IfOk};
ghost use Rattle.mru_items.specs.Queries.{IsRead};
ghost use Rattle.mru_read.specs.Pages.{IsTellable, gone_over, page_of, page_parts};
ghost use Rattle.mru_read.specs.declared.pages.PageFault.TheVariants.{NoneInPlace};

use crate::pages::{Page, PageFault, Rows};
use crate::starting::first_in_place;
use crate::taking::{newest_last, taken_rows};
use mru_items::{Pair, Pairs, ReadRequest};
use recency::{Recency, Steps};
use std::alloc::Global;
use std::sync::ledger::Ledger;

/// The page of a client list that a read asks for at a time (RFC 9327, section 4, command 10).
///
/// It begins behind the first named pair for which the list has a row of that client, port and last
/// arrival, or with the oldest row where no pair is named. It has the longest run of passing rows
/// from there on that is within the limit and whose datagrams are within the bound. It takes a
/// look-up for each named pair, and goes once over the rows that it shows and those between them,
/// and at most one that passes behind them.
pub fn page<R: Recency, L: Ledger>(
    alloc: Global,
    list: &R,
    request: &ReadRequest,
    now: u64,
    steps: &mut Steps<L>,
) -> Result<Page, PageFault>
    requires { IsRead request.now }
    ensures page { IfOk result (λ page. page_of (R.rows list.now) request.now now ≡ Some page) }
    ensures refused { (result ≡ Err NoneInPlace)
        ↔ (page_of (R.rows list.now) request.now now ≡ None) }
    ensures some { IfOk result (λ page. (1 ≤ length page.rows) ⊎ (page.ended ≡ true)) }
    ensures few { IfOk result (λ page. page_parts page ≤ request.now.frags) }
    ensures tellable { IfOk result IsTellable }
    ensures counted { steps.old ≤ steps.new }
    ensures cost { steps.new ≤ steps.old + length request.now.pairs * R.find_steps list.now
        + (gone_over (R.rows list.now) request.now + 2) * R.newer_steps list.now }
{
    // Its rows are a client list's, as it says here: each client has one.
    let _ = list.len();
    let confirmed = first_in_place(list, request.pairs.as_slice(), steps);
    if is_nowhere(&confirmed, &request.pairs) {
        return Err(PageFault::NoneInPlace);
    }
    let taken = taken_rows(alloc, list, request, &confirmed, steps)?;
    Ok(Page {
        rows: Rows::of(taken.rows),
        confirmed,
        ended: taken.ended,
        now,
        newest: newest_last(list),
    })
}

/// Whether pairs are named, and none of them stands in the list.
fn is_nowhere(confirmed: &Option<Pair>, pairs: &Pairs) -> bool
    ensures { result ≡ (not (is_some confirmed.now) && nat_lt 0 (length pairs.now)) }
{
    confirmed.is_none() && pairs.len() > 0
}

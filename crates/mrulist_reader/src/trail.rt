ghost use Rattle.std.specs.Prelude.{◌≡◌, ◌≤◌, ◌++◌, OnOk, length, map, take};
ghost use Rattle.mrulist_reader.specs.Readers.{cut_behind, pair_of, up_to_last};

use crate::confirming::is_same_pair;
use mru_items::{Pair, ShownRow};
use std::alloc::AllocError;

/// Drops the pairs that are newer than the confirmed one, or all where none is confirmed.
pub(crate) fn cut_behind(trail: &mut Vec<Pair>, older: Option<Pair>)
    ensures { trail.new.items ≡ cut_behind older trail.old.items }
{
    match older {
        None => trail.clear(),
        Some(pair) => {
            let kept = count_up_to(&pair, trail.as_slice());
            trail.truncate(kept);
        }
    }
}

/// How many pairs there are up to and with the last one that is this.
fn count_up_to(pair: &Pair, trail: &[Pair]) -> usize
    ensures { take result trail.now ≡ up_to_last pair.now trail.now }
{
    let mut count = trail.len();
    while count > 0 {
        if is_same_pair(pair, &trail[count - 1]) {
            return count;
        }
        count -= 1;
    }
    0
}

/// The pair of a row.
fn pair_of(row: &ShownRow) -> Pair
    ensures { result ≡ pair_of row.now }
{
    Pair {
        addr: row.addr,
        last: row.last,
    }
}

/// Adds the pairs of rows.
pub(crate) fn add_pairs(trail: &mut Vec<Pair>, rows: &[ShownRow]) -> Result<(), AllocError>
    ensures { OnOk result (trail.new.items ≡ trail.old.items ++ map pair_of rows.now) }
{
    for row in rows {
        trail.push(pair_of(row))?;
    }
    Ok(())
}

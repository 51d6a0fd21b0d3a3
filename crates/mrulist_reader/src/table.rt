ghost use Rattle.std.specs.Prelude.{◌≡◌, ◌||◌, [], ◌∷◌, ◌++◌, IfOk, OnOk, if◌then◌else◌};
ghost use Rattle.mrulist_reader.specs.Knowing.{knows};
ghost use Rattle.mrulist_reader.specs.Readers.{with_rows};
ghost use Rattle.net_addr.specs.Addresses.{same_ip};
ghost use Rattle.net_addr.specs.declared.addr.Ip.{Ip};

use crate::known::Known;
use mru_items::{Shown, ShownRow};
use std::alloc::{AllocError, Global};
use std::marker::Model;

/// How many rows are told before those that no longer count are looked for.
const SLACK: usize = 1_024;

/// One row a client, in the order in which they were told last.
#[derive(Drop)]
pub struct Table {
    // All rows as they were told, but some that no longer count: of each client the last one counts.
    told: Vec<ShownRow>,
    // At so many rows those that no longer count are dropped.
    limit: usize,
}

impl Model for Table {
    ghost use Rattle.std.specs.Prelude.{List, []};
    ghost use Rattle.mru_items.specs.declared.shown.ShownRow.{ShownRow};
    ghost use Rattle.mrulist_reader.specs.Readers.{with_rows};

    ghost Value = { List ShownRow };

    ghost view = { λ t. with_rows [] t.told.items };
}

impl Table {
    /// No rows.
    pub(crate) fn new(alloc: Global) -> Table
        ensures { result ≡ [] }
    {
        Table {
            told: Vec::new(alloc),
            limit: SLACK,
        }
    }

    /// Adds rows at the end, one after another; each takes the place of its client's row.
    pub(crate) fn add(&mut self, alloc: Global, rows: &[ShownRow]) -> Result<(), AllocError>
        ensures { OnOk result (self.new ≡ with_rows self.old rows.now) }
    {
        self.make_room(alloc)?;
        self.told.extend_from_slice(rows)?;
        Ok(())
    }

    /// The rows.
    pub(crate) fn into_rows(self, alloc: Global) -> Result<Shown, AllocError>
        ensures { IfOk result (λ rows. rows ≡ self) }
    {
        let rows = last_rows(alloc, self.told.as_slice())?;
        Ok(Shown::of(rows))
    }

    /// Drops the rows that no longer count, once there are many: half of them do then.
    fn make_room(&mut self, alloc: Global) -> Result<(), AllocError>
        ensures { OnOk result (self.new ≡ self.old) }
    {
        if self.told.len() < self.limit {
            return Ok(());
        }
        let rows = last_rows(alloc, self.told.as_slice())?;
        self.limit = rows.len().saturating_mul(2).saturating_add(SLACK);
        self.told = rows;
        Ok(())
    }
}

/// The last row of each client, in their order.
fn last_rows(alloc: Global, told: &[ShownRow]) -> Result<Vec<ShownRow>, AllocError>
    ensures { IfOk result (λ rows. rows.items ≡ with_rows [] told.now) }
{
    let mut known = Known::new(alloc);
    let mut rows = Vec::new(alloc);
    let mut left = told.len();
    while left > 0 {
        left -= 1;
        keep_new(&mut known, &mut rows, &told[left])?;
    }
    rows.reverse();
    Ok(rows)
}

/// Keeps a row whose client is not known yet.
fn keep_new(known: &mut Known, rows: &mut Vec<ShownRow>, row: &ShownRow) -> Result<(), AllocError>
    ensures rows { OnOk result (rows.new.items ≡
        (if knows known.old row.now.addr.ip then rows.old.items
        else rows.old.items ++ row.now ∷ [])) }
    ensures known { OnOk result ((other : Ip) →
        knows known.new other ≡ (same_ip other row.now.addr.ip || knows known.old other)) }
{
    let is_new = known.add(&row.addr.ip)?;
    if !is_new {
        return Ok(());
    }
    rows.push(*row)?;
    Ok(())
}

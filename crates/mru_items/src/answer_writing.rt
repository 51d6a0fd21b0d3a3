ghost use Rattle.std.specs.Prelude.{◌≡◌, ◌++◌, ◌∷◌, [], IfOk, OnOk};
ghost use Rattle.mru_items.specs.Answers.{answer_items, older_items, row_items, rows_items, time_items};
ghost use Rattle.mru_items.specs.Names.{valued};
ghost use Rattle.mode6_frame.specs.Stamps.{stamp_text};
ghost use Rattle.net_addr.specs.Spelling.{text_of};

use crate::answer::PageAnswer;
use crate::pair::Pair;
use crate::shown::ShownRow;
use crate::value_text::{add, add_numbered, address, fixed, flags, number, stamp};
use mode6_frame::{Item, Items};
use std::alloc::{AllocError, Global};

/// The items of an answer to a read (RFC 9327, section 4, command 10), in their order.
#[tactic(auto, unfolding(crate::specs::Answers::answer_items))]
pub fn answer_items(alloc: Global, answer: &PageAnswer) -> Result<Items, AllocError>
    ensures { IfOk result (λ items. items ≡ answer_items answer.now) }
{
    let mut items = Vec::new(alloc);
    add(alloc, &mut items, b"nonce", fixed(alloc, &answer.nonce)?)?;
    put_older(alloc, &mut items, &answer.older)?;
    put_rows(alloc, &mut items, answer.rows.as_slice())?;
    put_time(alloc, &mut items, b"now", answer.ended)?;
    put_time(alloc, &mut items, b"last.newest", answer.newest)?;
    Ok(Items::of(items))
}

/// Appends the items of the client behind which the page begins.
fn put_older(alloc: Global, items: &mut Vec<Item>, older: &Option<Pair>) -> Result<(), AllocError>
    ensures { OnOk result (items.new.items ≡ items.old.items ++ older_items older.now) }
{
    match older {
        None => Ok(()),
        Some(pair) => put_pair(alloc, items, b"addr.older", b"last.older", pair),
    }
}

/// Appends the items of a client: its address, and when it last arrived.
fn put_pair(
    alloc: Global,
    items: &mut Vec<Item>,
    addr: &[u8],
    last: &[u8],
    pair: &Pair,
) -> Result<(), AllocError>
    ensures { OnOk result (items.new.items ≡ items.old.items
        ++ valued addr.now (text_of pair.now.addr) ∷ valued last.now (stamp_text pair.now.last) ∷ []) }
{
    add(alloc, items, addr, address(alloc, &pair.addr)?)?;
    add(alloc, items, last, stamp(alloc, pair.last)?)
}

/// Appends the items of rows, numbered from 0 on.
fn put_rows(alloc: Global, items: &mut Vec<Item>, rows: &[ShownRow]) -> Result<(), AllocError>
    ensures { OnOk result (items.new.items ≡ items.old.items ++ rows_items 0 rows.now) }
{
    for number in 0..rows.len() {
        put_row(alloc, items, number, &rows[number])?;
    }
    Ok(())
}

/// Appends the six items of a row.
fn put_row(
    alloc: Global,
    items: &mut Vec<Item>,
    place: usize,
    row: &ShownRow,
) -> Result<(), AllocError>
    ensures { OnOk result (items.new.items ≡ items.old.items ++ row_items place row.now) }
{
    add_numbered(alloc, items, b"addr", place, address(alloc, &row.addr)?)?;
    add_numbered(alloc, items, b"last", place, stamp(alloc, row.last)?)?;
    add_numbered(alloc, items, b"first", place, stamp(alloc, row.first)?)?;
    add_numbered(alloc, items, b"ct", place, number(alloc, row.count)?)?;
    add_numbered(
        alloc,
        items,
        b"mv",
        place,
        number(alloc, u32::from(row.mv))?,
    )?;
    add_numbered(alloc, items, b"rs", place, flags(alloc, row.flags)?)
}

/// Appends the item of a time that may be left out.
fn put_time(
    alloc: Global,
    items: &mut Vec<Item>,
    name: &[u8],
    time: Option<u64>,
) -> Result<(), AllocError>
    ensures { OnOk result (items.new.items ≡ items.old.items ++ time_items name.now time) }
{
    match time {
        None => Ok(()),
        Some(time) => add(alloc, items, name, stamp(alloc, time)?),
    }
}

ghost use Rattle.std.specs.Prelude.{◌≡◌, ◌≤◌, ◌<◌, ◌+◌, ◌^◌, Some, length, map, option_map, IfOk};
ghost use Rattle.std.specs.List.{AllByRecursion};
ghost use Rattle.mode6_frame.specs.declared.message.TheConstants.{HEAD_LEN, MAX_BODY};
ghost use Rattle.mru_items.specs.Queries.{told_time};
ghost use Rattle.mru_items.specs.declared.query.TheConstants.{MAX_FRAGS};
ghost use Rattle.mru_read.specs.Pages.{IsTellable, IsUnquoted, at_end, grams_of_page, page_parts, shown_row, told_page, told_pair};

use crate::pages::{Page, Rows};
use edge_traits::Grams;
use fixed_time::Ntp64;
use mode6_frame::{Head, cut};
use mru_items::{Nonce, PageAnswer, Pair, Shown, ShownRow, answer_items};
use net_addr::Addr;
use recency::Row;
use std::alloc::{AllocError, Global};

/// The datagrams of a page, in order, with a nonce for the next read: as many as are counted for
/// the page, whatever the origin and the nonce, where that needs no quotes, which may take one more
/// (RFC 9327, section 2). Where there are several they share the time of the page as their tag.
pub fn page_grams(
    alloc: Global,
    page: &Page,
    nonce: &Nonce,
    origin: Ntp64,
    head: &Head,
) -> Result<Grams, AllocError>
    requires tellable { IsTellable page.now }
    requires few { page_parts page.now ≤ MAX_FRAGS }
    ensures value { IfOk result (λ grams. grams
        ≡ grams_of_page page.entry.now nonce.now origin.0 head.now) }
    ensures count { IsUnquoted nonce.now
        → IfOk result (λ grams. length grams ≡ page_parts page.entry.now) }
    ensures at_most { IfOk result (λ grams. length grams ≤ page_parts page.entry.now + 1) }
    ensures short { IfOk result (AllByRecursion (λ gram. length gram ≤ HEAD_LEN + MAX_BODY)) }
{
    let answer = told_page(alloc, page, nonce, origin.0)?;
    let items = answer_items(alloc, &answer)?;
    cut(alloc, &items, page.now, head)
}

/// What a page tells, with a nonce, of a server whose clocks begin at this time.
fn told_page(
    alloc: Global,
    page: &Page,
    nonce: &Nonce,
    origin: u64,
) -> Result<PageAnswer, AllocError>
    ensures told { IfOk result
        (λ answer. answer ≡ told_page nonce.now origin page.entry.now) }
    ensures few { IfOk result (λ _. length page.entry.now.rows < 2 ^ 64) }
    ensures nonce { length nonce.now ≡ 24 }
{
    let rows = shown_rows(alloc, &page.rows, origin)?;
    Ok(PageAnswer {
        nonce: *nonce,
        older: told_pair(&page.confirmed, origin),
        rows,
        ended: at_end(page.ended, Some(told_time(page.now, origin))),
        newest: at_end(page.ended, told_newest(page.newest, origin)),
    })
}

/// A stamp of a server whose clocks begin at this time, as a timestamp.
fn told_time(stamp: u64, origin: u64) -> u64
    ensures { result ≡ told_time origin stamp }
{
    origin.wrapping_add(stamp)
}

/// The same of a stamp that may be left out.
fn told_newest(stamp: Option<u64>, origin: u64) -> Option<u64>
    ensures { result ≡ option_map (told_time origin) stamp }
{
    match stamp {
        None => None,
        Some(stamp) => Some(told_time(stamp, origin)),
    }
}

/// A time that only the end of the list tells.
fn at_end(ended: bool, time: Option<u64>) -> Option<u64>
    ensures { result ≡ at_end ended time }
{
    if ended { time } else { None }
}

/// A pair that may be left out, as it is told.
fn told_pair(pair: &Option<Pair>, origin: u64) -> Option<Pair>
    ensures { result ≡ option_map (told_pair origin) pair.now }
{
    match pair {
        None => None,
        Some(pair) => Some(Pair {
            addr: pair.addr,
            last: told_time(pair.last, origin),
        }),
    }
}

/// Rows as they are told.
fn shown_rows(alloc: Global, rows: &Rows, origin: u64) -> Result<Shown, AllocError>
    ensures told { IfOk result (λ shown. shown ≡ map (shown_row origin) rows.entry.now) }
    ensures few { IfOk result (λ _. length rows.entry.now < 2 ^ 64) }
{
    let mut shown = Vec::with_capacity(alloc, rows.len())?;
    for row in rows.as_slice() {
        shown.push(shown_row(row, origin))?;
    }
    Ok(Shown::of(shown))
}

/// A row as it is told.
fn shown_row(row: &Row, origin: u64) -> ShownRow
    ensures { result ≡ shown_row origin row.now }
{
    ShownRow {
        addr: Addr {
            ip: row.ip,
            port: row.port,
        },
        last: told_time(row.last, origin),
        first: told_time(row.first, origin),
        count: row.count,
        mv: row.mv,
        flags: row.flags,
    }
}

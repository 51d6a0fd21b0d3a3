//! Listings of a server's clients over a link that loses, repeats and reorders their datagrams, while
//! the list changes.

ghost use Rattle.mru_items.specs.Queries.{IsLimit, IsQuery};

use edge_traits::{MemoryPort, Salt};
use fixed_time::Ntp64;
use mac_keys::Auth;
use mru_items::{MruFilter, Query, Shown};
use mrulist_reader::Listing;
use mrulist_run::{RunFault, run};
use net_addr::{Addr, Ip, is_same_addr};
use ntpq_client::{AskFault, Client};
use planned_link::{Deed, Fate, Fates, Link, Ops, Plan};
use recency::Limits;
use server_core::{Ask, Book, Op};
use std::alloc::{AllocError, Global};
use std::process::Abort;
use std::test::Fail;
use sys_vars::Record;

/// The query tool, as the server sees it.
const TOOL: Addr = Addr {
    ip: Ip::V4([127, 0, 0, 1]),
    port: 123,
};

const SECOND: u64 = 1 << 32;

/// The client of this number.
fn client(number: u32) -> Addr {
    let [_, high, middle, low] = number.to_be_bytes();
    Addr {
        ip: Ip::V4([10, high, middle, low]),
        port: 123,
    }
}

/// A request for the time from the client of this number.
fn arrival(number: u32, moment: u64) -> Op {
    let ask = Ask {
        from: client(number),
        version: 4,
        poll: 6,
        transmit: Ntp64(0),
        auth: Auth::Absent,
    };
    Op::Arrive(ask, moment)
}

/// Requests from clients of these numbers, one after another.
fn arrivals(alloc: Global, from: u32, to: u32, moment: u64) -> Result<Vec<Op>, AllocError> {
    let mut ops = Vec::new(alloc);
    for number in from..to {
        ops.push(arrival(number, moment))?;
    }
    Ok(ops)
}

/// A server of up to 16,384 clients that has taken these operations.
fn server(alloc: Global, ops: Vec<Op>) -> Result<Book, Fail> {
    let unix = Ntp64(0x83aa_7e80_0000_0000);
    let limits = Limits::of(1, 16_384, 0, 3_600 * SECOND).ok_or("limits")?;
    let mut book = Book::begin(alloc, Record::opening(alloc, unix)?, limits, unix)?;
    for op in ops {
        let _ = book.step(op);
    }
    Ok(book)
}

/// A listing of pages of so many rows and datagrams, within the bounds of both.
fn query(limit: Option<u32>, frags: u32, mincount: u32) -> Query
    ensures { IsQuery result }
{
    Query {
        filter: MruFilter {
            mincount: mincount.max(1),
            resall: 0,
            resany: 0,
        },
        limit: bounded(limit),
        frags: frags.max(1).min(128),
    }
}

fn bounded(limit: Option<u32>) -> Option<u32>
    ensures { IsLimit result }
{
    match limit {
        Some(rows) => Some(rows.max(1).min(256)),
        None => None,
    }
}

/// What is listed of a server while this happens.
fn list(alloc: Global, book: Book, deeds: Vec<Deed>, query: &Query) -> Result<Listing, Fail>
    requires { IsQuery query.now }
{
    let mut link = Link::of(
        alloc,
        book,
        TOOL,
        Salt([7; 16]),
        4_000 * SECOND,
        Plan::of(deeds),
    );
    let mut client = Client::new(alloc, TOOL);
    let listing = run(alloc, &mut client, query, &mut link)
        .ok()
        .ok_or("a listing")?;
    Ok(listing)
}

/// A give at which the server first takes these operations, and whose answer has this fate.
fn deed(alloc: Global, ops: Vec<Op>, fate: Fate) -> Result<Deed, AllocError> {
    let mut fates = Vec::new(alloc);
    for _ in 0..128 {
        fates.push(fate)?;
    }
    Ok(Deed {
        ops: Ops::of(ops),
        served: 1,
        fates: Fates::of(fates),
    })
}

/// How many of the first rows are those of clients whose numbers rise by one from `from` on.
fn in_order(rows: &Shown, from: u32) -> u32 {
    let mut number = from;
    for row in rows.as_slice() {
        if !is_same_addr(&row.addr, &client(number)) {
            return number.saturating_sub(from);
        }
        number = number.saturating_add(1);
    }
    number.saturating_sub(from)
}

#[test]
fn a_still_list_is_listed_whole(rt: HostRuntime) -> Result<(), Fail> {
    let alloc = rt.alloc();
    let cases = [
        (600, Some(256), 128, 1, 600),
        (600, Some(1), 32, 1, 600),
        (600, None, 1, 1, 600),
        (600, None, 32, 2, 0),
        (0, None, 32, 1, 0),
        (4_000, Some(256), 128, 1, 4_000),
    ];
    for (clients, limit, frags, mincount, listed) in cases {
        let book = server(alloc, arrivals(alloc, 0, clients, SECOND)?)?;
        let listing = list(alloc, book, Vec::new(alloc), &query(limit, frags, mincount))?;
        assert_eq!(rt; listing.rows.len(), listed as usize, "of {clients}");
        assert_eq!(rt; in_order(&listing.rows, 0), listed, "of {clients}");
    }
    Ok(())
}

/// How many rows are those of the client of this number.
fn rows_of(rows: &Shown, number: u32) -> u32 {
    let mut count: u32 = 0;
    for row in rows.as_slice() {
        if is_same_addr(&row.addr, &client(number)) {
            count = count.saturating_add(1);
        }
    }
    count
}

/// Whether so many clients are listed once each.
fn are_once(rows: &Shown, clients: u32) -> bool {
    for number in 0..clients {
        if rows_of(rows, number) != 1 {
            return false;
        }
    }
    rows.len() == clients as usize
}

// The 11th client arrives again between the two pages.
#[test]
fn a_client_that_moves_between_pages_is_listed_once(rt: HostRuntime) -> Result<(), Fail> {
    let alloc = rt.alloc();
    let book = server(alloc, arrivals(alloc, 0, 300, SECOND)?)?;
    let moves = arrivals(alloc, 10, 11, 2_000 * SECOND)?;
    let deeds = vec![in alloc;
        deed(alloc, Vec::new(alloc), Fate::Last)?,
        deed(alloc, Vec::new(alloc), Fate::Last)?,
        deed(alloc, moves, Fate::Last)?,
    ]?;
    let listing = list(alloc, book, deeds, &query(Some(256), 128, 1))?;
    assert!(rt; are_once(&listing.rows, 300), "each client");
    assert_eq!(rt; listing.pages, 2);
    let last = listing.rows.as_slice().last().ok_or("a row")?;
    assert!(rt; is_same_addr(&last.addr, &client(10)) && last.count == 2);
    Ok(())
}

// A read names eight clients, so two reads name the sixteen newest, which have all moved.
#[test]
fn a_listing_goes_back_to_older_clients(rt: HostRuntime) -> Result<(), Fail> {
    let alloc = rt.alloc();
    let book = server(alloc, arrivals(alloc, 0, 600, SECOND)?)?;
    let moves = arrivals(alloc, 240, 256, 2_000 * SECOND)?;
    let deeds = vec![in alloc;
        deed(alloc, Vec::new(alloc), Fate::Last)?,
        deed(alloc, Vec::new(alloc), Fate::Twice)?,
        deed(alloc, moves, Fate::Last)?,
    ]?;
    let listing = list(alloc, book, deeds, &query(Some(256), 128, 1))?;
    assert!(rt; are_once(&listing.rows, 600), "each client");
    assert_eq!(rt; listing.refused, 2);
    Ok(())
}

// All 256 clients of the first page go before the second read; each read names eight of them.
#[test]
fn a_listing_begins_anew_where_all_shown_clients_went(rt: HostRuntime) -> Result<(), Fail> {
    let alloc = rt.alloc();
    let mut ops = arrivals(alloc, 0, 256, SECOND)?;
    for op in arrivals(alloc, 256, 600, 2_000 * SECOND)? {
        ops.push(op)?;
    }
    let book = server(alloc, ops)?;
    let sweep = vec![in alloc; Op::Sweep(3_602 * SECOND)]?;
    let deeds = vec![in alloc;
        deed(alloc, Vec::new(alloc), Fate::Last)?,
        deed(alloc, Vec::new(alloc), Fate::Last)?,
        deed(alloc, sweep, Fate::Last)?,
    ]?;
    let listing = list(alloc, book, deeds, &query(Some(256), 128, 1))?;
    assert!(rt; are_once(&listing.rows, 600), "each client");
    assert_eq!(rt; listing.refused, 32);
    assert_eq!(rt; in_order(&listing.rows, 0), 600);
    Ok(())
}

// Every third answer is lost, and each other one comes with its last datagram first; one client
// arrives at each give.
#[test]
fn a_listing_completes_whatever_is_lost_and_turned_round(rt: HostRuntime) -> Result<(), Fail> {
    let alloc = rt.alloc();
    let book = server(alloc, arrivals(alloc, 0, 600, SECOND)?)?;
    let mut deeds = Vec::new(alloc);
    for number in 0..100 {
        let fate = if number % 3 == 2 {
            Fate::Lost
        } else {
            Fate::Front
        };
        let moves = arrivals(alloc, number, number + 1, 2_000 * SECOND)?;
        deeds.push(deed(alloc, moves, fate)?)?;
    }
    let listing = list(alloc, book, deeds, &query(Some(32), 8, 1))?;
    assert!(rt; are_once(&listing.rows, 600), "each client");
    Ok(())
}

#[test]
fn a_give_that_fails_ends_a_listing(rt: HostRuntime) -> Result<(), Fail> {
    let alloc = rt.alloc();
    let mut port = MemoryPort::of(alloc, Vec::new(alloc), vec![in alloc; 0]?);
    let mut client = Client::new(alloc, TOOL);
    let result = run(alloc, &mut client, &query(None, 32, 1), &mut port);
    assert!(rt; matches!(result, Err(RunFault::Ask(AskFault::Port))));
    Ok(())
}

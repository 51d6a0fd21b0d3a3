ghost use Rattle.std.specs.Prelude.{◌≡◌, [], IfOk};
ghost use Rattle.std.specs.List.{count_by};
ghost use Rattle.drawn_link.specs.Runs.{IsEnded, IsListed, is_sent, listing_query};
ghost use Rattle.mru_items.specs.Queries.{IsQuery};
ghost use Rattle.wire.specs.Wires.{client_events};

use crate::begin::begin;
use crate::link::{DrawnLink, HERE, LinkRest, SALT};
use draws::Draws;
use edge_traits::Event;
use list_telling::laws::journals_are_tellable;
use mac_keys::KeyTable;
use mru_items::{MruFilter, Query};
use mrulist_run::{Listing, RunFault, run};
use ntpq_client::Client;
use server_core::Book;
use shared_book::Common;
use std::alloc::{AllocError, Global};
use wire::{Places, Wire, WireEvent, places_of};
use worker::Act;

/// The moment before the first give: a second after the last client arrived.
const FIRST_MOMENT: u64 = 601 << 32;

/// A listing over a drawn link that ended: the server, what its worker did, what happened at both ends,
/// how many requests were given, the places that the answers are told from, and what it came to.
#[derive(Drop)]
pub struct LinkEnd {
    pub book: Book,
    pub acts: Vec<Act>,
    pub wire: Wire,
    pub given: u64,
    pub places: Places,
    pub result: Result<Listing, RunFault>,
}

/// Lists the clients of a server over a link that goes on with these draws.
pub fn link_run(alloc: Global, draws: Draws) -> Result<LinkEnd, AllocError>
    ensures { IfOk result IsEnded }
{
    let mut link = opened(alloc, draws)?;
    let mut client = Client::new(alloc, HERE);
    let listed = run(alloc, &mut client, &query(), &mut link);
    finish(alloc, link, listed)
}

/// A link that goes on with these draws, before its first give.
fn opened(alloc: Global, draws: Draws) -> Result<DrawnLink, AllocError>
    ensures { IfOk result (λ link. link.log ≡ []) }
{
    let book = begin(alloc)?;
    let common = Common {
        keys: KeyTable::new(alloc),
        salt: SALT,
        origin: book.origin(),
    };
    Ok(DrawnLink::of(alloc, book, common, HERE, HERE, FIRST_MOMENT, draws))
}

/// What a listing over a link came to.
fn finish(
    alloc: Global,
    link: DrawnLink,
    listed: Result<Listing, RunFault>,
) -> Result<LinkEnd, AllocError>
    requires { IsListed listed (client_events link.log) }
    ensures { IfOk result IsEnded }
{
    let LinkRest { book, acts, log } = link.into_rest();
    journals_are_tellable(book.journal());
    let wire = Wire::of(log);
    let given = requests_in(wire.events());
    let places = places_of(alloc, &wire, &HERE, acts.as_slice())?;
    Ok(LinkEnd {
        book,
        acts,
        wire,
        given,
        places,
        result: listed,
    })
}

/// How many requests a client gave.
fn requests_in(events: &[WireEvent]) -> u64
    ensures { result ≡ count_by is_sent (client_events events.now) }
{
    let mut given = 0;
    for event in events {
        match event {
            WireEvent::Client(Event::Sent(_, _)) => given += 1,
            WireEvent::Client(_) => {}
            WireEvent::Worker(_) => {}
        }
    }
    given
}

/// Pages of 32 rows in eight datagrams, of all clients.
fn query() -> Query
    ensures value { result ≡ listing_query }
    ensures query { IsQuery result }
{
    Query {
        filter: MruFilter {
            mincount: 1,
            resall: 0,
            resany: 0,
        },
        limit: Some(32),
        frags: 8,
    }
}

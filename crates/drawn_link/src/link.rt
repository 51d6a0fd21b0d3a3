ghost use Rattle.std.specs.Prelude.{◌≡◌, ℕ, List, [], IfOk};
ghost use Rattle.drawn_link.specs.Links.{IsDrawn};
ghost use Rattle.drawn_link.specs.Services.{IsGiven, Runs};

use crate::happening::happen;
use crate::serving::{Service, Visit, serve};
use crate::settling::{news_of, settle};
use draws::Draws;
use edge_traits::{Event, Octets, Port, PortFault, Salt, Taken};
use net_addr::{Addr, Ip, is_same_addr};
use server_core::Book;
use shared_book::Common;
use std::alloc::{AllocError, Global};
use std::collections::VecDeque;
use std::marker::Model;
use wire::WireEvent;
use worker::Act;

/// So much time passes at each give and each take: a sixteenth of a second, in units of 2^-32
/// seconds.
pub const TICK: u64 = 1 << 28;

/// So many gives are drawn; at a later one nothing happens but the request, which is served once, and
/// its answers come in their order.
pub const DRAWN_GIVES: u32 = 400;

/// The address of the server and that of the query tool.
pub const HERE: Addr = Addr {
    ip: Ip::V4([127, 0, 0, 1]),
    port: 123,
};

/// The server's secret.
pub const SALT: Salt = Salt([0; 16]);

/// A port for a client, with a server behind it in the same process. What is given is served at once,
/// and the answers wait in a queue, from which the takes are. What else the server does meanwhile, how
/// often a request is served, and which datagrams are lost, come twice or come early, is drawn.
#[derive(Drop)]
pub struct DrawnLink {
    alloc: Global,
    book: Book,
    common: Common,
    server: Addr,
    client: Addr,
    moment: u64,
    draws: Draws,
    queue: VecDeque<Octets>,
    log: Vec<WireEvent>,
    acts: Vec<Act>,
    given: u32,
    quiets: u64,
}

impl Model for DrawnLink {
    ghost use Rattle.drawn_link.specs.Links.{IsDrawn, LinkParts};

    ghost Value = { LinkParts };

    ghost view = { λ l. record {
      book = l.book;
      common = l.common;
      server = l.server;
      client = l.client;
      acts = l.acts.items;
      log = l.log.items;
      quiets = l.quiets;
    } };

    ghost invariant = { λ l. IsDrawn l.common l.server l.client l.book
        l.acts.items l.log.items l.queue.items };
}

/// What is left of a link: the server, what its worker did, and what happened at both ends.
#[derive(Drop)]
pub(crate) struct LinkRest {
    pub(crate) book: Book,
    pub(crate) acts: Vec<Act>,
    pub(crate) log: Vec<WireEvent>,
}

impl DrawnLink {
    /// A link between this server and a client of this address, whose calls begin after this moment.
    pub(crate) fn of(
        alloc: Global,
        book: Book,
        common: Common,
        server: Addr,
        client: Addr,
        moment: u64,
        draws: Draws,
    ) -> DrawnLink
        requires { IsDrawn common server client book [] [] [] }
        ensures { result ≡ record {
          book = book;
          common = common;
          server = server;
          client = client;
          acts = [];
          log = [];
          quiets = 0;
        } }
    {
        DrawnLink {
            alloc,
            book,
            common,
            server,
            client,
            moment,
            draws,
            queue: VecDeque::new(alloc),
            log: Vec::new(alloc),
            acts: Vec::new(alloc),
            given: 0,
            quiets: 0,
        }
    }

    /// The server, what its worker did, and what happened at both ends.
    pub(crate) fn into_rest(self) -> LinkRest
        ensures book { result.book ≡ self.book }
        ensures acts { result.acts.items ≡ self.acts }
        ensures log { result.log.items ≡ self.log }
        ensures drawn { (queue : List (List ℕ))
            × IsDrawn self.common self.server self.client self.book self.acts self.log queue }
    {
        LinkRest {
            book: self.book,
            acts: self.acts,
            log: self.log,
        }
    }
}

impl Port for DrawnLink {
    ghost use Rattle.std.specs.Prelude.{Some, false};
    ghost use Rattle.edge_traits.specs.declared.octets.TheConstants.{MAX_OCTETS};
    ghost use Rattle.wire.specs.Wires.{client_events};

    ghost trace = { λ l. Some (client_events l.log) };

    ghost faults = { λ _. 0 };

    ghost quiets = { λ l. l.quiets };

    ghost is_closed = { λ _. false };

    ghost address = { λ l. l.client };

    ghost most = { λ _. MAX_OCTETS };

    fn take(&mut self, into: &mut Octets) -> Result<Taken, PortFault> {
        self.moment = self.moment.saturating_add(TICK);
        if self.log.reserve(1).is_err() {
            return Err(PortFault::NoMemory);
        }
        match self.queue.pop_front() {
            None => {
                self.log.push_reserved(WireEvent::Client(Event::Silence));
                self.quiets = self.quiets.saturating_add(1);
                Ok(Taken::Quiet)
            }
            Some(octets) => {
                let took = Event::Took(self.server, octets.copy());
                self.log.push_reserved(WireEvent::Client(took));
                *into = octets;
                Ok(Taken::Datagram(self.server))
            }
        }
    }

    fn give(&mut self, to: &Addr, octets: &[u8]) -> Result<(), PortFault> {
        self.moment = self.moment.saturating_add(TICK);
        self.given = self.given.saturating_add(1);
        let is_drawn = self.given <= DRAWN_GIVES;
        let is_served = is_same_addr(to, &self.server);
        let visit = Visit {
            common: &self.common,
            moment: self.moment,
            from: self.client,
            octets,
        };
        let book = &mut self.book;
        let draws = &mut self.draws;
        let services = match serve_drawn(self.alloc, book, draws, is_drawn, is_served, &visit) {
            Ok(services) => services,
            Err(_) => return Err(PortFault::NoMemory),
        };
        let news = match news_of(self.alloc, to, &visit, services.as_slice()) {
            Ok(news) => news,
            Err(_) => return Err(PortFault::NoMemory),
        };
        match settle(
            &mut self.log,
            &mut self.acts,
            &mut self.queue,
            draws,
            is_drawn,
            news,
        ) {
            Ok(()) => Ok(()),
            Err(_) => Err(PortFault::NoMemory),
        }
    }
}

/// Has a server do what is drawn, and then take a datagram, if it is for it.
fn serve_drawn(
    alloc: Global,
    book: &mut Book,
    draws: &mut Draws,
    is_drawn: bool,
    is_served: bool,
    visit: &Visit<'_>,
) -> Result<Vec<Service>, AllocError>
    ensures served { IfOk result (λ services. IsGiven visit.now.common.now visit.now.from
        visit.now.octets.now is_served book.old services.items book.new) }
    ensures runs { Runs book.old book.new }
{
    let times = happen(alloc, book, draws, is_drawn, visit.moment)?;
    if is_served {
        serve(alloc, book, visit, times)
    } else {
        Ok(Vec::new(alloc))
    }
}

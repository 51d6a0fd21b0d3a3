ghost use Rattle.std.specs.Prelude.{◌≡◌, ◌≢◌, ◌≤◌, [], length, Ok, Err, OnErr};
ghost use Rattle.edge_traits.specs.Counts.{Counts};
ghost use Rattle.edge_traits.specs.Told.{gained};
ghost use Rattle.edge_traits.specs.Trace.{given_events, taken_events};
ghost use Rattle.planned_link.specs.Links.{IsGiven, IsTaken};

use crate::deed::{Deed, Plan, next_deed};
use crate::queued::{Queued, settle};
use crate::serving::{Delivery, serve};
use edge_traits::{Event, MAX_OCTETS, Octets, Port, PortFault, Salt, Taken};
use mac_keys::KeyTable;
use net_addr::Addr;
use server_core::Book;
use std::alloc::Global;
use std::collections::VecDeque;
use std::marker::Model;
use sys_vars::Context;

/// So much time passes at each give and each take: a sixteenth of a second, in units of 2^-32
/// seconds.
pub const TICK: u64 = 1 << 28;

/// A port for a client, with a server behind it in the same process. What is given is served at once,
/// and the answers wait in a queue, from which the takes are. A plan says what else happens: what the
/// server does meanwhile, and which datagrams are lost, come twice or come early.
#[derive(Drop)]
pub struct Link {
    alloc: Global,
    book: Book,
    // The client's address, as the server sees it.
    from: Addr,
    salt: Salt,
    moment: u64,
    plan: VecDeque<Deed>,
    queue: VecDeque<Queued>,
    places: Vec<Option<u64>>,
    given: u32,
    quiets: u64,
    events: Vec<Event>,
}

impl Model for Link {
    ghost use Rattle.planned_link.specs.Links.{LinkParts};

    ghost Value = { LinkParts };

    ghost view = { λ l. record {
      book = l.book;
      from = l.from;
      salt = l.salt;
      moment = l.moment;
      plan = l.plan.items;
      queue = l.queue.items;
      places = l.places.items;
      given = l.given;
      quiets = l.quiets;
      trace = l.events.items;
    } };
}

impl Link {
    /// A link to this server for a client of this address. The server has this secret, and the calls
    /// begin after this moment.
    pub fn of(alloc: Global, book: Book, from: Addr, salt: Salt, moment: u64, plan: Plan) -> Link
        ensures { result ≡ record {
          book = book;
          from = from;
          salt = salt;
          moment = moment;
          plan = plan;
          queue = [];
          places = [];
          given = 0;
          quiets = 0;
          trace = [];
        } }
    {
        Link {
            alloc,
            book,
            from,
            salt,
            moment,
            plan: plan.into_deque(),
            queue: VecDeque::new(alloc),
            places: Vec::new(alloc),
            given: 0,
            quiets: 0,
            events: Vec::new(alloc),
        }
    }

    /// The server.
    pub fn book(&self) -> &Book
        ensures { result.now ≡ self.now.book }
    {
        &self.book
    }

    /// How many gives there were; it stays at the greatest number that there is.
    pub fn given(&self) -> u32
        ensures { result ≡ self.now.given }
    {
        self.given
    }

    /// For each datagram that was taken, in their order, the number of the read in the server's
    /// journal that it answers; None where it answers no read, or one that is prohibited.
    pub fn places(&self) -> &[Option<u64>]
        ensures { result.now ≡ self.now.places }
    {
        self.places.as_slice()
    }

    /// The moment of the last give or take, in units of 2^-32 seconds after the server's origin.
    pub fn moment(&self) -> u64
        ensures { result ≡ self.now.moment }
    {
        self.moment
    }

    /// What happened at the port, oldest first.
    pub fn events(&self) -> &[Event]
        ensures { result.now ≡ self.now.trace }
    {
        self.events.as_slice()
    }
}

impl Port for Link {
    ghost use Rattle.std.specs.Prelude.{Some, false};
    ghost use Rattle.edge_traits.specs.declared.octets.TheConstants.{MAX_OCTETS};

    ghost trace = { λ l. Some l.trace };

    ghost faults = { λ _. 0 };

    ghost quiets = { λ l. l.quiets };

    ghost is_closed = { λ _. false };

    ghost address = { λ l. l.from };

    ghost most = { λ _. MAX_OCTETS };

    fn take(&mut self, into: &mut Octets) -> Result<Taken, PortFault>
        ensures taken { IsTaken self.old result into.old into.new self.new }

        // What is told and counted.
        ensures told { ⟦<Link as Port>⟧.trace self.new
            ≡ gained (⟦<Link as Port>⟧.trace self.old) (taken_events result into.new) }
        ensures quiets { Counts (result ≡ Ok Taken.Quiet)
            (⟦<Link as Port>⟧.quiets self.old) (⟦<Link as Port>⟧.quiets self.new) }
        ensures quiet_kept { result ≡ Ok Taken.Quiet → into.new ≡ into.old }
        ensures err { OnErr result (into.new ≡ into.old) }

        // It is never closed, fails for want of memory alone, and stays the one that it is.
        ensures open { result ≢ Ok Taken.Closed }
        ensures fault { OnErr result (result ≡ Err PortFault.NoMemory) }
        ensures address_kept { ⟦<Link as Port>⟧.address self.new
            ≡ ⟦<Link as Port>⟧.address self.old }
    {
        self.moment = self.moment.saturating_add(TICK);
        if self.events.reserve(1).is_err() {
            return Err(PortFault::NoMemory);
        }
        if self.places.reserve(1).is_err() {
            return Err(PortFault::NoMemory);
        }
        match self.queue.pop_front() {
            None => {
                self.events.push_reserved(Event::Silence);
                self.quiets = self.quiets.saturating_add(1);
                Ok(Taken::Quiet)
            }
            Some(queued) => {
                let Queued {
                    from,
                    octets,
                    place,
                } = queued;
                self.events.push_reserved(Event::Took(from, octets.copy()));
                self.places.push_reserved(place);
                *into = octets;
                Ok(Taken::Datagram(from))
            }
        }
    }

    fn give(&mut self, to: &Addr, octets: &[u8]) -> Result<(), PortFault>
        requires { length octets.now ≤ MAX_OCTETS }
        ensures given { IsGiven self.old to.now octets.now result self.new }

        // What is told and counted.
        ensures told { ⟦<Link as Port>⟧.trace self.new
            ≡ gained (⟦<Link as Port>⟧.trace self.old)
            (given_events result to.now octets.now) }
        ensures quiets_same { ⟦<Link as Port>⟧.quiets self.new
            ≡ ⟦<Link as Port>⟧.quiets self.old }

        // It fails for want of memory alone, and stays the one that it is.
        ensures fault { OnErr result (result ≡ Err PortFault.NoMemory) }
        ensures address_kept { ⟦<Link as Port>⟧.address self.new
            ≡ ⟦<Link as Port>⟧.address self.old }
    {
        self.moment = self.moment.saturating_add(TICK);
        self.given = self.given.saturating_add(1);
        let Deed { ops, served, fates } = next_deed(self.alloc, &mut self.plan);
        let keys = KeyTable::new(self.alloc);
        let delivery = Delivery {
            keys: &keys,
            context: Context {
                salt: self.salt,
                origin: self.book.origin(),
                moment: self.moment,
            },
            from: self.from,
            to: *to,
            octets,
        };
        match serve(self.alloc, &mut self.book, ops, served, &delivery) {
            Err(_) => Err(PortFault::NoMemory),
            Ok(answers) => {
                let mut copy = Octets::new();
                copy.put(octets);
                let sent = Event::Sent(*to, copy);
                match settle(&mut self.events, &mut self.queue, sent, fates, answers) {
                    Ok(()) => Ok(()),
                    Err(_) => Err(PortFault::NoMemory),
                }
            }
        }
    }
}

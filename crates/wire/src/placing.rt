ghost use Rattle.std.specs.Prelude.{◌≡◌, ◌++◌, ◌∷◌, List, drop, IfOk, OnOk};
ghost use Rattle.net_addr.specs.declared.addr.Addr.{Addr};
ghost use Rattle.wire.specs.Kept.{offers_of, placed};
ghost use Rattle.wire.specs.Placing.{first_place, offer_to, place_in, places_by, places_in, read_place};
ghost use Rattle.wire.specs.declared.wire.WireEvent.{WireEvent};

use crate::wire::{Wire, WireEvent};
use edge_traits::{Event, Octets};
use net_addr::{Addr, is_same_addr};
use std::alloc::{AllocError, Global};
use std::marker::Model;
use worker::{Act, ActKind, ReadKind};

/// The places of the reads that the datagrams tell of which a client took, one for each of them.
#[derive(Drop)]
pub struct Places {
    kept: Vec<Option<u64>>,
}

impl Model for Places {
    ghost use Rattle.std.specs.Prelude.{List, Option, ℕ};

    ghost Value = { List (Option ℕ) };

    ghost view = { λ p. p.kept.items };
}

impl Places {
    /// The places, in the order of the datagrams.
    pub fn as_slice(&self) -> &[Option<u64>]
        ensures { result.now ≡ self.now }
    {
        self.kept.as_slice()
    }
}

/// A datagram that the worker gave to the client, and the place of the read that it answers, if
/// any.
#[derive(Drop)]
pub(crate) struct Kept {
    place: Option<u64>,
    octets: Octets,
}

/// How far the places have come: how many acts were begun, the place of the last one's read, the
/// datagrams that were given to the client, and the places of those that it took.
#[derive(Drop)]
pub(crate) struct Placing {
    begun: usize,
    place: Option<u64>,
    offers: Vec<Kept>,
    places: Vec<Option<u64>>,
}

/// The places of the reads that a client's datagrams tell of, over a wire whose worker has these
/// acts. Each datagram that the client took has the place of the first one with its octets that was
/// given to the client before; one that answers no read, or one that is prohibited, has none.
pub fn places_of(
    alloc: Global,
    wire: &Wire,
    client: &Addr,
    acts: &[Act],
) -> Result<Places, AllocError>
    ensures { IfOk result (λ places. places ≡ places_in client.now acts.now wire.now) }
{
    let mut placing = Placing {
        begun: 0,
        place: None,
        offers: Vec::new(alloc),
        places: Vec::new(alloc),
    };
    for event in wire.events() {
        placing.pass(client, acts, event)?;
    }
    Ok(Places {
        kept: placing.places,
    })
}

impl Placing {
    /// Goes on behind one event.
    fn pass(&mut self, client: &Addr, acts: &[Act], event: &WireEvent) -> Result<(), AllocError>
        ensures { OnOk result ((rest : List WireEvent)
            → placed client.now acts.now self.new rest
            ≡ placed client.now acts.now self.old (event.now ∷ rest)) }
    {
        match event {
            WireEvent::Client(Event::Took(_from, octets)) => {
                let place = place_in(self.offers.as_slice(), octets);
                self.places.push(place)?;
                Ok(())
            }
            WireEvent::Client(_) => Ok(()),
            WireEvent::Worker(Event::Took(_from, _octets)) => {
                self.begin(acts);
                Ok(())
            }
            WireEvent::Worker(Event::Sent(to, octets)) => self.offer(client, to, octets),
            WireEvent::Worker(Event::Silence) => Ok(()),
        }
    }

    /// Begins the next act, if there is one.
    fn begin(&mut self, acts: &[Act])
        ensures { (client : Addr) → (rest : List WireEvent)
            → placed client acts.now self.new rest
            ≡ self.old.places.items ++ places_by client (drop 1 (drop self.old.begun acts.now))
            (first_place (drop self.old.begun acts.now)) (offers_of self.old.offers.items) rest }
    {
        if self.begun < acts.len() {
            self.place = read_place(&acts[self.begun].kind);
            self.begun += 1;
        } else {
            self.place = None;
        }
    }

    /// Keeps a datagram that was given, where it was given to the client.
    fn offer(&mut self, client: &Addr, to: &Addr, octets: &Octets) -> Result<(), AllocError>
        ensures offers { OnOk result (offers_of self.new.offers.items
            ≡ offers_of self.old.offers.items
            ++ offer_to client.now self.old.place to.now octets.now) }
        ensures begun { self.new.begun ≡ self.old.begun }
        ensures place { self.new.place ≡ self.old.place }
        ensures places { self.new.places ≡ self.old.places }
    {
        if is_same_addr(client, to) {
            self.offers.push(Kept {
                place: self.place,
                octets: octets.copy(),
            })?;
        }
        Ok(())
    }
}

/// The place of the first of these that has these octets.
fn place_in(offers: &[Kept], octets: &Octets) -> Option<u64>
    ensures { result ≡ place_in (offers_of offers.now) octets.now }
{
    for offer in offers {
        if offer.octets.as_slice() == octets.as_slice() {
            return offer.place;
        }
    }
    None
}

/// The place of an act's read.
fn read_place(kind: &ActKind) -> Option<u64>
    ensures { result ≡ read_place kind.now }
{
    match *kind {
        ActKind::Read {
            place,
            reply: ReadKind::Refused | ReadKind::Page,
        } => Some(place),
        ActKind::Dropped(place) => place,
        _ => None,
    }
}

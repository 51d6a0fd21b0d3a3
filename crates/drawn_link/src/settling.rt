ghost use Rattle.std.specs.Prelude.{◌≡◌, ◌≤◌, ◌+◌, [], ◌∷◌, ◌++◌, length, map, IfOk, OnOk, OnErr};
ghost use Rattle.std.specs.VecDeque.{deque_capacity, deque_len};
ghost use Rattle.drawn_link.specs.Links.{fate_of, placed, queue_after, state_after};
ghost use Rattle.drawn_link.specs.Services.{acts_of, grams_in, service_events};
ghost use Rattle.edge_traits.specs.declared.octets.TheConstants.{MAX_OCTETS};
ghost use Rattle.edge_traits.specs.declared.port.Event.{Event};
ghost use Rattle.wire.specs.declared.wire.WireEvent.{WireEvent};

use crate::serving::{Service, Visit};
use draws::Draws;
use edge_traits::{Event, Octets};
use net_addr::Addr;
use std::alloc::{AllocError, Global};
use std::collections::VecDeque;
use wire::WireEvent;
use worker::Act;

/// By this number a datagram is queued at the end.
pub const LAST: u64 = 3;

/// What a give brings about: what happened at both ends, the worker's acts, and the datagrams of its
/// answers.
#[derive(Drop)]
pub(crate) struct News {
    pub(crate) log: Vec<WireEvent>,
    pub(crate) acts: Vec<Act>,
    pub(crate) answers: Vec<Octets>,
}

/// The octets once more.
fn octets_of(octets: &[u8]) -> Octets
    requires { length octets.now ≤ MAX_OCTETS }
    ensures { result ≡ octets.now }
{
    let mut copy = Octets::new();
    copy.put(octets);
    copy
}

/// What a give to this address brings about, whose datagram was served so.
pub(crate) fn news_of(
    alloc: Global,
    to: &Addr,
    visit: &Visit<'_>,
    services: &[Service],
) -> Result<News, AllocError>
    requires { length visit.now.octets.now ≤ MAX_OCTETS }
    ensures log { IfOk result (λ news. news.log.items
        ≡ WireEvent.Client (Event.Sent to.now visit.now.octets.now)
        ∷ service_events visit.now.from visit.now.octets.now services.now) }
    ensures acts { IfOk result (λ news. news.acts.items ≡ acts_of services.now) }
    ensures answers { IfOk result (λ news. news.answers.items ≡ grams_in services.now) }
{
    let mut news = News {
        log: Vec::new(alloc),
        acts: Vec::new(alloc),
        answers: Vec::new(alloc),
    };
    let sent = Event::Sent(*to, octets_of(visit.octets));
    news.log.push(WireEvent::Client(sent))?;
    for service in services {
        news.add(visit, service)?;
    }
    Ok(news)
}

impl News {
    /// One service more.
    fn add(&mut self, visit: &Visit<'_>, service: &Service) -> Result<(), AllocError>
        requires { length visit.now.octets.now ≤ MAX_OCTETS }
        ensures log { OnOk result (self.new.log.items ≡ self.old.log.items
            ++ WireEvent.Worker (Event.Took visit.now.from visit.now.octets.now)
            ∷ map (λ gram. WireEvent.Worker (Event.Sent visit.now.from gram)) service.now.grams) }
        ensures acts { OnOk result (self.new.acts.items
            ≡ self.old.acts.items ++ service.now.act ∷ []) }
        ensures answers { OnOk result (self.new.answers.items
            ≡ self.old.answers.items ++ service.now.grams) }
    {
        let took = Event::Took(visit.from, octets_of(visit.octets));
        self.log.push(WireEvent::Worker(took))?;
        self.acts.push(service.act)?;
        for place in 0..service.grams.len() {
            let gram = service.grams.get(place);
            let sent = Event::Sent(visit.from, gram.copy());
            self.log.push(WireEvent::Worker(sent))?;
            self.answers.push(gram.copy())?;
        }
        Ok(())
    }
}

/// Tells what a give brought about, and queues the datagrams of the answers, where there is memory for
/// all of it.
pub(crate) fn settle(
    log: &mut Vec<WireEvent>,
    acts: &mut Vec<Act>,
    queue: &mut VecDeque<Octets>,
    draws: &mut Draws,
    is_drawn: bool,
    mut news: News,
) -> Result<(), AllocError>
    ensures log { OnOk result (log.new.items ≡ log.old.items ++ news.log.items) }
    ensures acts { OnOk result (acts.new.items ≡ acts.old.items ++ news.acts.items) }
    ensures queue { OnOk result (queue.new.items
        ≡ queue_after is_drawn draws.old news.answers.items queue.old.items) }
    ensures log_kept { OnErr result (log.new.items ≡ log.old.items) }
    ensures acts_kept { OnErr result (acts.new.items ≡ acts.old.items) }
    ensures queue_kept { OnErr result (queue.new.items ≡ queue.old.items) }
{
    let answers = news.answers.len();
    queue.reserve(answers.saturating_add(answers))?;
    log.reserve(news.log.len())?;
    acts.append(&mut news.acts)?;
    match log.append(&mut news.log) {
        Ok(()) => {}
        Err(_) => unreachable!(),
    }
    for gram in news.answers {
        let fate = fate(draws, is_drawn);
        place(queue, fate, gram);
    }
    Ok(())
}

/// The number that says what becomes of a datagram of an answer.
fn fate(draws: &mut Draws, is_drawn: bool) -> u64
    ensures fate { result ≡ fate_of is_drawn draws.old }
    ensures state { draws.new ≡ state_after is_drawn draws.old }
{
    if is_drawn { draws.below(16) } else { LAST }
}

/// Queues a datagram: by 0 it is lost, by 1 it is queued twice, by 2 at the front, and else at the end.
/// There is room for it twice.
fn place(queue: &mut VecDeque<Octets>, fate: u64, gram: Octets)
    requires { deque_len queue.old + 2 ≤ deque_capacity queue.old }
    ensures placed { queue.new.items ≡ placed fate gram queue.old.items }
    ensures len { deque_len queue.new ≤ deque_len queue.old + 2 }
    ensures capacity { deque_capacity queue.new ≡ deque_capacity queue.old }
{
    match fate {
        0 => {}
        1 => {
            let again = gram.copy();
            queue.push_back_reserved(gram);
            queue.push_back_reserved(again);
        }
        2 => queue.push_front_reserved(gram),
        _ => queue.push_back_reserved(gram),
    }
}

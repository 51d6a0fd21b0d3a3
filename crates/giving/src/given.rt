ghost use Rattle.std.specs.Prelude.{◌≡◌, ◌≢◌, ◌≤◌, ◌<◌, ◌↔◌, [], ◌∷◌, length, take};
ghost use Rattle.std.specs.List.{AllByRecursion};
ghost use Rattle.edge_traits.specs.Ports.{IsPortKept};
ghost use Rattle.edge_traits.specs.Told.{gained, Rose};
ghost use Rattle.server_core.specs.Responses.{IsGivable, grams_of};
ghost use Rattle.giving.specs.Gives.{sent_events};
ghost use Rattle.giving.specs.declared.given.GiveEnd.{GiveEnd};

use edge_traits::{Grams, Octets, Port, PortFault};
use mac_keys::KeyTable;
use net_addr::Addr;
use server_core::{Response, rate_reply_into, read_grams, time_reply_into};
use std::alloc::Global;
use sys_vars::Context;

/// How the giving of an answer ended.
#[derive(Clone, Copy, Debug, PartialEq, Eq)]
pub enum GiveEnd {
    /// All of it was given.
    Whole,
    /// The port failed.
    Failed,
    /// Memory was wanting, for the answer or in the port.
    NoMemory,
}

/// What was given of an answer.
#[derive(Clone, Copy, Debug, PartialEq, Eq)]
pub struct Given {
    /// How many of its datagrams.
    pub count: u64,
    pub end: GiveEnd,
}

/// Gives the datagrams of the response to what came in this context, at this moment. A reply to a
/// request for the time is spelled into `lent`, in place of what was there; only the answer to a read
/// of the client list takes memory.
pub fn give_response<P: Port>(
    alloc: Global,
    port: &mut P,
    keys: &KeyTable,
    context: &Context,
    response: &Response,
    sent: u64,
    to: &Addr,
    lent: &mut Octets,
) -> Given
    requires most { 1024 ≤ P.most port.old }
    requires givable { IsGivable keys.now response.now }
    ensures given { P.trace port.new ≡ gained (P.trace port.old) (sent_events to.now
        (take result.count (grams_of keys.now context.now sent response.now))) }
    ensures whole { result.end ≡ GiveEnd.Whole
        → result.count ≡ length (grams_of keys.now context.now sent response.now) }
    ensures cut { result.end ≢ GiveEnd.Whole
        → result.count < length (grams_of keys.now context.now sent response.now) }
    ensures failed { result.end ≡ GiveEnd.Failed → Rose 1 (P.faults port.old) (P.faults port.new) }
    ensures kept { IsPortKept P.faults P.quiets P.address P.most port.old port.new }
{
    match response {
        Response::Silent(_) => Given {
            count: 0,
            end: GiveEnd::Whole,
        },
        Response::Time(ask, basis) => {
            time_reply_into(basis, ask, keys, context.moment, sent, lent);
            give_one(port, to, lent)
        }
        Response::Rate(ask) => {
            rate_reply_into(ask, lent);
            give_one(port, to, lent)
        }
        Response::Grams(grams) => give_all(port, to, grams),
        Response::Read(from, head, reply) => match read_grams(alloc, reply, from, head, context) {
            Err(_) => Given {
                count: 0,
                end: GiveEnd::NoMemory,
            },
            Ok(grams) => give_all(port, to, &grams),
        },
    }
}

/// How a give that did not give its datagram ends an answer.
fn end_of(fault: PortFault) -> GiveEnd
    ensures failed { (result ≡ GiveEnd.Failed) ↔ (fault ≡ PortFault.Failed) }
    ensures cut { result ≢ GiveEnd.Whole }
{
    match fault {
        PortFault::Failed => GiveEnd::Failed,
        PortFault::NoMemory => GiveEnd::NoMemory,
    }
}

/// Gives one datagram.
fn give_one<P: Port>(port: &mut P, to: &Addr, gram: &Octets) -> Given
    requires most { length gram.now ≤ P.most port.old }
    ensures given { P.trace port.new ≡ gained (P.trace port.old) (sent_events to.now
        (take result.count (gram.now ∷ []))) }
    ensures whole { result.end ≡ GiveEnd.Whole → result.count ≡ 1 }
    ensures cut { result.end ≢ GiveEnd.Whole → result.count ≡ 0 }
    ensures failed { result.end ≡ GiveEnd.Failed → Rose 1 (P.faults port.old) (P.faults port.new) }
    ensures kept { IsPortKept P.faults P.quiets P.address P.most port.old port.new }
{
    match port.give(to, gram.as_slice()) {
        Ok(()) => Given {
            count: 1,
            end: GiveEnd::Whole,
        },
        Err(fault) => Given {
            count: 0,
            end: end_of(fault),
        },
    }
}

/// Gives datagrams in their order, up to one that the port does not give.
fn give_all<P: Port>(port: &mut P, to: &Addr, grams: &Grams) -> Given
    requires { AllByRecursion (λ gram. length gram ≤ P.most port.old) grams.now }
    ensures given { P.trace port.new ≡ gained (P.trace port.old) (sent_events to.now
        (take result.count grams.now)) }
    ensures whole { result.end ≡ GiveEnd.Whole → result.count ≡ length grams.now }
    ensures cut { result.end ≢ GiveEnd.Whole → result.count < length grams.now }
    ensures failed { result.end ≡ GiveEnd.Failed → Rose 1 (P.faults port.old) (P.faults port.new) }
    ensures kept { IsPortKept P.faults P.quiets P.address P.most port.old port.new }
{
    for place in 0..grams.len() {
        if let Err(fault) = port.give(to, grams.get(place).as_slice()) {
            return Given {
                count: place as u64,
                end: end_of(fault),
            };
        }
    }
    Given {
        count: grams.len() as u64,
        end: GiveEnd::Whole,
    }
}

ghost use Rattle.std.specs.Prelude.{◌≡◌, ◌-◌, ◌<◌, [], ◌∷◌, Some, None, Ok, Err, ℕ, List, OnOk, OnErr, IfOk, IfErr, IsErrOf};
ghost use Rattle.edge_traits.specs.Ports.{IsPortKept};
ghost use Rattle.edge_traits.specs.Told.{Rose};
ghost use Rattle.edge_traits.specs.declared.port.Event.{Event};
ghost use Rattle.ntpq_client.specs.declared.news.News.{News};
ghost use Rattle.ntpq_client.specs.Talks.{stuck, after_event, news_of, patience};
ghost use Rattle.ntpq_client.specs.Dialogues.{IsTaken};
ghost use Rattle.ntpq_client.specs.Ends.{Causes, Listened};
ghost use Rattle.ntpq_client.specs.Exchanges.{TookOne};

use crate::client::Client;
use crate::fault::AskFault;
use crate::news::News;
use edge_traits::{Octets, Port, PortFault, Taken, Text};
use std::alloc::Global;

/// What came for a client that waits.
#[derive(Drop)]
pub enum Got {
    /// A whole answer: its status and its text.
    Whole { status: u16, text: Text },
    /// Nothing, for a while.
    Quiet,
}

impl Client {
    /// Takes until an answer to the request posted last is whole or refuses it, or a take finds
    /// nothing. A client that has given up takes nothing more.
    pub fn poll<P: Port>(&mut self, alloc: Global, port: &mut P) -> Result<Got, AskFault>
        requires { 0 < self.old.posted }
        ensures listened { Listened self.old self.new result (P.trace port.old) (P.trace port.new) }
        ensures causes { Causes result (P.faults port.old) (P.faults port.new)
            (P.is_closed port.new) }
        // The port found nothing at least as often as the client's count rose.
        ensures quiets { Rose (self.new.quiets - self.old.quiets)
            (P.quiets port.old) (P.quiets port.new) }
        ensures kept { IsPortKept P.faults P.quiets P.address P.most port.old port.new }
        ensures posted { self.new.posted ≡ self.old.posted }

        // A client that has given up stays so, and calls its port no more.
        ensures stuck { (fault : AskFault) → stuck self.old ≡ Some fault → result ≡ Err fault }
        ensures port_kept { (fault : AskFault) → stuck self.old ≡ Some fault
            → port.new ≡ port.old }
    {
        if let Some(fault) = self.stuck() {
            return Err(fault);
        }
        listen(alloc, self, port)
    }
}

/// Takes until there is news for a client that has not given up.
fn listen<P: Port>(alloc: Global, client: &mut Client, port: &mut P) -> Result<Got, AskFault>
    requires { stuck client.old ≡ None }
    ensures listened { Listened client.old client.new result
        (P.trace port.old) (P.trace port.new) }
    ensures causes { Causes result (P.faults port.old) (P.faults port.new)
        (P.is_closed port.new) }
    ensures kept { IsPortKept P.faults P.quiets P.address P.most port.old port.new }
    ensures posted { client.new.posted ≡ client.old.posted }
    ensures quiets { Rose (client.new.quiets - client.old.quiets)
        (P.quiets port.old) (P.quiets port.new) }
{
    let mut datagram = Octets::new();
    'listening: loop {
        match take_one(alloc, client, port, &mut datagram)? {
            News::Nothing => {}
            News::Answered { status, text } => return Ok(Got::Whole { status, text }),
            News::Denied { code } => return Err(AskFault::Refused(code)),
            News::Quiet => return quiet(client),
        }
        if let Some(fault) = client.stuck() {
            return Err(fault);
        }
    }
}

/// What a take that found nothing is to a client: no news, or that it gives up.
fn quiet(client: &Client) -> Result<Got, AskFault>
    ensures unstuck { OnOk result (stuck client.now ≡ None) }
    ensures quiet { IfOk result (λ got. got ≡ Got.Quiet) }
    ensures stuck { IfErr result (λ fault. stuck client.now ≡ Some fault) }
{
    match client.stuck() {
        Some(fault) => Err(fault),
        None => Ok(Got::Quiet),
    }
}

/// Takes once: what it is to a client that has not given up.
fn take_one<P: Port>(
    alloc: Global,
    client: &mut Client,
    port: &mut P,
    datagram: &mut Octets,
) -> Result<News, AskFault>
    requires { stuck client.old ≡ None }
    ensures took { TookOne client.old client.new result (P.trace port.old) (P.trace port.new) }
    ensures less { result ≡ Ok News.Nothing → patience client.new < patience client.old }
    ensures posted { client.new.posted ≡ client.old.posted }
    ensures quiets { Rose (client.new.quiets - client.old.quiets)
        (P.quiets port.old) (P.quiets port.new) }
    ensures causes { Causes result (P.faults port.old) (P.faults port.new)
        (P.is_closed port.new) }
    ensures kept { IsPortKept P.faults P.quiets P.address P.most port.old port.new }
{
    match port.take(datagram) {
        Ok(Taken::Datagram(from)) => match client.hear(alloc, &from, datagram.as_slice()) {
            Ok(news) => Ok(news),
            Err(_) => Err(AskFault::NoMemory),
        },
        Ok(Taken::Quiet) => {
            client.note_silence();
            Ok(News::Quiet)
        }
        Ok(Taken::Closed) => Err(AskFault::Closed),
        Err(PortFault::Failed) => Err(AskFault::Port),
        Err(PortFault::NoMemory) => Err(AskFault::NoMemory),
    }
}

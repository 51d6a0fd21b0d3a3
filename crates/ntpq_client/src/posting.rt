ghost use Rattle.std.specs.Prelude.{◌≡◌, ◌+◌, ◌<◌, ◌≤◌, ◌↔◌, ◌⊎◌, [], ◌∷◌, Some, None, Err, ℕ, List, length, OnOk, OnErr, IfOk, IfErr, IsErrOf};
ghost use Rattle.edge_traits.specs.Ports.{IsPortKept};
ghost use Rattle.edge_traits.specs.Told.{gained, Rose};
ghost use Rattle.edge_traits.specs.declared.port.Event.{Event};
ghost use Rattle.mode6_frame.specs.Places.{frame_at};
ghost use Rattle.ntpq_client.specs.Requests.{IsRequest, request_octets, request_parts};
ghost use Rattle.ntpq_client.specs.Talks.{stuck, after_event, post_of};
ghost use Rattle.ntpq_client.specs.Ends.{Causes, PostEnds};

use crate::client::{Client, MAX_REQUESTS};
use crate::fault::AskFault;
use crate::request::Request;
use edge_traits::{Octets, Port, PortFault};
use mode6_frame::{Frame, HEAD_LEN, MAX_BODY, write};
use net_addr::Addr;
use std::alloc::Global;

impl Client {
    /// Posts a request with the next sequence number, 1 first, unless the client has given up. What
    /// came of earlier answers is dropped.
    pub fn post<P: Port>(
        &mut self,
        alloc: Global,
        request: &Request,
        port: &mut P,
    ) -> Result<(), AskFault>
        requires request { IsRequest request.now }
        requires most { HEAD_LEN + MAX_BODY ≤ P.most port.old }
        ensures sent { OnOk result (P.trace port.new
            ≡ gained (P.trace port.old) (post_of request.now self.old ∷ [])) }
        ensures after { OnOk result
            (self.new ≡ after_event (post_of request.now self.old) self.old) }
        ensures reads { OnOk result
            (frame_at (request_octets request.now (self.old.posted + 1))
            ≡ request_parts request.now (self.old.posted + 1)) }

        // A fault leaves the client as it was, and nothing is told.
        ensures unsent { OnErr result (P.trace port.new ≡ P.trace port.old) }
        ensures client_kept { OnErr result (self.new ≡ self.old) }

        // The refusals, in their order.
        ensures stuck { (fault : AskFault) → stuck self.old ≡ Some fault → result ≡ Err fault }
        ensures ends { PostEnds result self.old }
        ensures causes { Causes result (P.faults port.old) (P.faults port.new)
            (P.is_closed port.new) }
        ensures kept { IsPortKept P.faults P.quiets P.address P.most port.old port.new }
        ensures port_kept { (fault : AskFault) → stuck self.old ≡ Some fault → port.new ≡ port.old }
        ensures posted { OnOk result (self.new.posted ≡ self.old.posted + 1) }
        ensures quiets { self.new.quiets ≡ self.old.quiets }
    {
        if let Some(fault) = self.stuck() {
            return Err(fault);
        }
        let posted = self.posted();
        if posted >= MAX_REQUESTS {
            return Err(AskFault::Incomplete);
        }
        let octets = octets_of(request, posted + 1);
        send(port, &self.server(), &octets)?;
        self.note_post(alloc, request.opcode);
        Ok(())
    }
}

/// The octets of a request with this sequence number.
#[tactic(auto, unfolding(crate::specs::Requests::request_octets))]
fn octets_of(request: &Request, sequence: u16) -> Octets
    requires { IsRequest request.now }
    ensures value { result ≡ request_octets request.now sequence }
    ensures places { frame_at result ≡ request_parts request.now sequence }
    ensures short { length result ≤ HEAD_LEN + MAX_BODY }
{
    write(&Frame {
        leap: 0,
        version: request.version,
        response: false,
        error: false,
        more: false,
        opcode: request.opcode,
        sequence,
        status: 0,
        assoc: request.assoc,
        offset: 0,
        body: request.body.as_slice(),
        rest: &[],
    })
}

/// Gives one datagram.
fn send<P: Port>(port: &mut P, to: &Addr, datagram: &Octets) -> Result<(), AskFault>
    requires most { length datagram.now ≤ P.most port.old }
    ensures sent { OnOk result (P.trace port.new
        ≡ gained (P.trace port.old) (Event.Sent to.now datagram.now ∷ [])) }
    ensures unsent { OnErr result (P.trace port.new ≡ P.trace port.old) }
    ensures faults { IfErr result (λ fault.
        (fault ≡ AskFault.Port) ⊎ (fault ≡ AskFault.NoMemory)) }
    ensures causes { Causes result (P.faults port.old) (P.faults port.new)
        (P.is_closed port.new) }
    ensures kept { IsPortKept P.faults P.quiets P.address P.most port.old port.new }
{
    match port.give(to, datagram.as_slice()) {
        Ok(()) => Ok(()),
        Err(PortFault::Failed) => Err(AskFault::Port),
        Err(PortFault::NoMemory) => Err(AskFault::NoMemory),
    }
}

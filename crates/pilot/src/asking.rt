ghost use Rattle.std.specs.Prelude.{◌≡◌, ◌≤◌, ◌<◌, length};
ghost use Rattle.associations.specs.Taking.{HasPeer};
ghost use Rattle.associations.specs.declared.asking.TheConstants.{MAX_REQUEST_LEN};
ghost use Rattle.pilot.specs.Gains.{IsCounted, lacks_of};
ghost use Rattle.pilot.specs.Steps.{Asks};

use crate::helm::Helm;
use edge_traits::{Clock, Port, PortFault};
use mac_keys::KeyTable;

impl<P: Port, C: Clock> Helm<P, C> {
    /// Sends a server its request, which is due again a poll interval later. A request that the port
    /// does not give is left out.
    pub(crate) fn ask(&mut self, keys: &KeyTable, at: u64, peer: u16)
        requires most { MAX_REQUEST_LEN ≤ self.old.outside.most }
        requires there { HasPeer self.old.steering.peers peer }
        requires room { peer < length self.old.steering.due }
        ensures { Asks keys.now at peer self.old self.new }
    {
        let clock = self.steering.engine.clock();
        let to = self.steering.peers.addr_of(peer);
        let next = self.steering.peers.next_request(peer, at);
        let request = self.steering.peers.request_for(peer, &clock, keys, at);
        self.steering.due.put(u32::from(peer), next);
        let gave = self.port.give(&to, request.as_slice());
        self.left = left_after(gave, self.left);
    }
}

/// How much was left out after one more give.
fn left_after(gave: Result<(), PortFault>, left: u64) -> u64
    ensures { IsCounted (lacks_of gave) left result }
{
    match gave {
        Ok(()) => left,
        Err(PortFault::Failed) => left,
        Err(PortFault::NoMemory) => left.saturating_add(1),
    }
}

ghost use Rattle.std.specs.Prelude.{◌≡◌, ◌≤◌, ℕ, Bool, IsTrue, OnErr, IsErrOf, Option, List, length};
ghost use Rattle.net_addr.specs.declared.addr.Addr.{Addr};

use crate::octets::Octets;
use net_addr::Addr;

/// What a take found.
#[derive(Clone, Copy, Debug, PartialEq, Eq)]
pub enum Taken {
    /// A datagram from this address.
    Datagram(Addr),
    /// Nothing came for a while.
    Quiet,
    /// Nothing will come any more.
    Closed,
}

/// Why a take or a give failed.
#[derive(Clone, Copy, Debug, PartialEq, Eq)]
pub enum PortFault {
    /// The port could not do it; its count of faults rose.
    Failed,
    /// Memory was wanting.
    NoMemory,
}

/// What happened at a port.
#[derive(Drop)]
pub enum Event {
    /// A datagram was taken: from where, and its octets.
    Took(Addr, Octets),
    /// A take found nothing for a while.
    Silence,
    /// A datagram was given: to where, and its octets.
    Sent(Addr, Octets),
}

/// A datagram socket, or what stands for one.
pub trait Port {
    ghost use Rattle.edge_traits.specs.declared.port.Event.{Event};
    ghost use Rattle.edge_traits.specs.Told.{gained, Rose};
    ghost use Rattle.edge_traits.specs.Trace.{taken_events, given_events};

    /// What happened so far, oldest first, where it is told.
    ghost trace: { Self → Option (List Event) };

    /// How many takes and gives failed.
    ghost faults: { Self → ℕ };

    /// How many takes found nothing for a while.
    ghost quiets: { Self → ℕ };

    /// Whether nothing will come any more.
    ghost is_closed: { Self → Bool };

    /// The address at which it was bound.
    ghost address: { Self → Addr };

    /// The greatest number of octets of one give.
    ghost most: { Self → ℕ };

    /// Takes the next datagram into `into`, in place of what was there.
    fn take(&mut self, into: &mut Octets) -> Result<Taken, PortFault>
        ensures told { trace self.new ≡ gained (trace self.old) (taken_events result into.new) }
        ensures quiet { result ≡ Ok Taken.Quiet → Rose 1 (quiets self.old) (quiets self.new) }
        ensures quiet_kept { result ≡ Ok Taken.Quiet → into.new ≡ into.old }
        ensures closed { result ≡ Ok Taken.Closed → IsTrue (is_closed self.new) }
        ensures closed_kept { result ≡ Ok Taken.Closed → self.new ≡ self.old }
        ensures closed_into { result ≡ Ok Taken.Closed → into.new ≡ into.old }
        ensures failed { IsErrOf result PortFault.Failed
            → Rose 1 (faults self.old) (faults self.new) }
        ensures err { OnErr result (into.new ≡ into.old) }

        // The counts never fall, and the port stays the one that it is.
        ensures faults_kept { faults self.old ≤ faults self.new }
        ensures quiets_kept { quiets self.old ≤ quiets self.new }
        ensures address_kept { address self.new ≡ address self.old }
        ensures most_kept { most self.new ≡ most self.old };

    /// Gives one datagram.
    fn give(&mut self, to: &Addr, octets: &[u8]) -> Result<(), PortFault>
        requires { length octets.now ≤ most self.old }
        ensures told { trace self.new
            ≡ gained (trace self.old) (given_events result to.now octets.now) }
        ensures failed { IsErrOf result PortFault.Failed
            → Rose 1 (faults self.old) (faults self.new) }

        // The counts never fall, and the port stays the one that it is.
        ensures faults_kept { faults self.old ≤ faults self.new }
        ensures quiets_kept { quiets self.old ≤ quiets self.new }
        ensures address_kept { address self.new ≡ address self.old }
        ensures most_kept { most self.new ≡ most self.old };
}

ghost use Rattle.std.specs.Prelude.{◌≡◌, ◌||◌, false, not, IfOk, OnOk};
ghost use Rattle.mrulist_reader.specs.Knowing.{knows};
ghost use Rattle.net_addr.specs.Addresses.{same_ip};
ghost use Rattle.net_addr.specs.declared.addr.Ip.{Ip};

use net_addr::Ip;
use std::alloc::{AllocError, Global};
use std::collections::BTreeSet;

/// A set of IP addresses, by family.
#[derive(Drop)]
pub struct Known {
    v4: BTreeSet<[u8; 4]>,
    v6: BTreeSet<[u8; 16]>,
}

impl Known {
    /// No addresses.
    pub(crate) fn new(alloc: Global) -> Known
        ensures { (ip : Ip) → knows result ip ≡ false }
    {
        Known {
            v4: BTreeSet::new(alloc),
            v6: BTreeSet::new(alloc),
        }
    }

    /// Adds an address: whether it is new.
    pub(crate) fn add(&mut self, ip: &Ip) -> Result<bool, AllocError>
        ensures new { IfOk result (λ is_new. is_new ≡ not (knows self.old ip.now)) }
        ensures added { OnOk result ((other : Ip) →
            knows self.new other ≡ (same_ip other ip.now || knows self.old other)) }
    {
        match ip {
            Ip::V4(octets) => match self.v4.insert(*octets) {
                Ok(is_new) => Ok(is_new),
                Err(_) => Err(AllocError),
            },
            Ip::V6(octets) => match self.v6.insert(*octets) {
                Ok(is_new) => Ok(is_new),
                Err(_) => Err(AllocError),
            },
        }
    }
}

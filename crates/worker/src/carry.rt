use edge_traits::Octets;
use net_addr::Addr;

/// A datagram that was taken and is still to be answered.
#[derive(Drop)]
pub struct Carry {
    pub from: Addr,
    pub bytes: Octets,
}

use crate::class::Ask;
use crate::op::Op;
use mode6_frame::Head;
use net_addr::Addr;

/// What is kept of a request while a server takes it, and makes the response of the server's reply.
#[derive(Clone, Copy, Debug, PartialEq, Eq)]
pub enum Request {
    /// For the time.
    Time(Ask),
    /// A control request.
    Look,
    /// A read of the client list from this address; its answer repeats this.
    Read(Addr, Head),
}

/// A request on its way to a server.
#[derive(Drop)]
pub struct Call {
    /// What the server is to take.
    pub op: Op,
    /// What is kept meanwhile.
    pub request: Request,
}

use crate::class::{Ask, Unheard};
use crate::read_reply::ReadReply;
use crate::reply::Basis;
use edge_traits::Grams;
use mode6_frame::Head;
use net_addr::Addr;

/// Why a datagram gets no answer.
#[derive(Clone, Copy, Debug, PartialEq, Eq)]
pub enum Silence {
    /// It is not heard.
    Unheard(Unheard),
    /// The restrict flags of its sender refuse it.
    Ignored,
    /// Its sender is over its rate.
    Limited,
}

/// What a datagram gets from a server: nothing, and why, or datagrams, in their order.
#[derive(Drop)]
pub enum Response {
    /// Nothing.
    Silent(Silence),
    /// The time, to this request and from these values. The datagram is made once it is known when
    /// it is sent.
    Time(Ask, Basis),
    /// The kiss code RATE, to this request.
    Rate(Ask),
    /// These datagrams.
    Grams(Grams),
    /// What becomes of a read from this address, whose answer repeats this head. `read_grams` makes the
    /// datagrams.
    Read(Addr, Head, ReadReply),
}

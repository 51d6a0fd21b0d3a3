use net_addr::Addr;
use server_core::Unheard;

/// The most acts of a worker in a session.
pub const MAX_ACTS: usize = 65_536;

/// The kind of a verdict on a request for the time.
#[derive(Clone, Copy, Debug, PartialEq, Eq)]
pub enum VerdictKind {
    /// No answer: the restrict flags of the client refuse it.
    Ignored,
    /// No answer: the client is over its rate.
    Limited,
    /// The kiss code RATE.
    Rate,
    /// The time.
    Served,
}

/// The kind of what becomes of a read of the client list.
#[derive(Clone, Copy, Debug, PartialEq, Eq)]
pub enum ReadKind {
    /// No answer: the restrict flags of the sender refuse it.
    Ignored,
    /// The restrict flags of the sender prohibit it.
    Prohibited,
    /// Clients are named, and none stands in the list as named.
    Refused,
    /// A page.
    Page,
}

/// What became of a datagram. A place is that of its operation in the history, counted from 0.
#[derive(Clone, Copy, Debug, PartialEq, Eq)]
pub enum ActKind {
    /// A request for the time, and when its answer was given, in 32.32 seconds after the origin.
    Time {
        place: u64,
        xmt: u64,
        verdict: VerdictKind,
    },
    /// A control request; `mark` is its place, and `ignored` that it gets no answer.
    Control {
        mark: u64,
        ignored: bool,
    },
    /// A read of the client list.
    Read {
        place: u64,
        reply: ReadKind,
    },
    /// It is not heard.
    Silent(Unheard),
    /// Memory was wanting: before it was entered, or for its answer.
    Dropped(Option<u64>),
}

/// What a worker did about one datagram.
#[derive(Clone, Copy, Debug, PartialEq, Eq)]
pub struct Act {
    /// Where it came from, and its answer went.
    pub from: Addr,
    /// When it was classed, in 32.32 seconds after the origin.
    pub moment: u64,
    pub kind: ActKind,
    /// How many datagrams of its answer were given.
    pub given: u64,
    /// A give of the answer failed.
    pub failed: bool,
}

use crate::op::{Stop, Why};
use crate::read_reply::ReadReply;
use crate::verdict::Verdict;
use sys_vars::Answer;

/// What an operation is answered.
#[derive(Drop)]
pub enum Reply {
    /// The record is published.
    Published,
    /// What becomes of a request for the time.
    Time(Verdict),
    /// The answer to a control request.
    Looked(Answer),
    /// What becomes of a read of the client list.
    Read(ReadReply),
    /// So many rows of the client list went.
    Swept(u32),
    /// The server stops.
    Stopped,
}

/// Why an operation is refused, in the order of the tests.
#[derive(Clone, Copy, Debug, PartialEq, Eq)]
pub enum StepFault {
    /// The server was stopped so.
    Ended(Stop),
    /// The journal has all the operations, or all the publications, that it may have.
    Full(Why),
    /// The last stamp is the greatest that there is.
    ClockEnd,
    /// Memory was wanting.
    NoMemory,
}

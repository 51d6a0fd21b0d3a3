use crate::class::{Ask, ReadAsk};
use sys_vars::{Asked, Context, Record};

/// The most operations of a journal, beside one that stops the server.
pub const MAX_ENTRIES: usize = 262_144;

/// The most publications of a journal.
pub const MAX_PUBLICATIONS: usize = 4_096;

/// Why a server stops.
#[derive(Clone, Copy, Debug, PartialEq, Eq)]
pub enum Why {
    /// A port failed.
    PortFault,
    /// The journal has all the operations that it may have.
    Entries,
    /// The journal has all the publications that it may have.
    Publications,
    /// A worker has all the acts that it may have.
    Acts,
    /// The last stamp is the greatest that there is.
    ClockEnd,
}

/// Who stops a server, and why.
#[derive(Clone, Copy, Debug, PartialEq, Eq)]
pub struct Stop {
    /// The number of the worker, from 0, or that of all workers for the one that keeps the time.
    pub who: u32,
    pub why: Why,
}

/// What a server takes, one after another. Moments are in 32.32 seconds after the origin.
#[derive(Drop)]
pub enum Op {
    /// This record is published, which who publishes it has put into a box.
    Publish(Box<Record>),
    /// A request for the time came at this moment.
    Arrive(Ask, u64),
    /// A control request came.
    Look(Asked, Context),
    /// A read of the client list came at this moment.
    Read(ReadAsk, u64),
    /// Old rows of the client list go, as of this moment.
    Sweep(u64),
    /// The server stops.
    Stop(Stop),
}

// The journal's room is that of each entry times their number, so an entry is to stay small.
const _: () = prove!(size_of::<Op>() <= 112);

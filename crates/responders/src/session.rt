use crate::workers::Workers;
use edge_traits::{Clock, Port};
use pilot::Pilot;
use server_core::{Book, Stop};
use shared_book::Common;

/// All that serves: what its threads have in common, the book, the workers and the pilot.
#[derive(Drop)]
pub struct Session<P: Port, C: Clock> {
    pub common: Common,
    pub book: Book,
    pub workers: Workers<P, C>,
    pub pilot: Pilot<P, C>,
}

/// How a session ended.
#[derive(Clone, Copy, Debug, PartialEq, Eq)]
pub enum Outcome {
    /// Nothing will come any more, at any port.
    AllClosed,
    /// This stop stands.
    Stopped(Stop),
    /// Memory was wanting before it began.
    NoMemory,
}

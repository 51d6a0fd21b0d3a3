use crate::pair::Pair;
use crate::shown::Shown;

/// How many octets a nonce has.
pub const NONCE_OCTETS: usize = 24;

/// A nonce as it stands in a request and an answer.
pub type Nonce = [u8; NONCE_OCTETS];

/// What an answer to a read tells: a page of the client list. Times are timestamps of 32.32 seconds.
#[derive(Drop)]
pub struct PageAnswer {
    /// The nonce for the next read.
    pub nonce: Nonce,
    /// The client behind which the page begins, as the read named it; None for the list's beginning.
    pub older: Option<Pair>,
    /// What is told of each client, oldest arrival first.
    pub rows: Shown,
    /// When the page was read, where no client is left behind it.
    pub ended: Option<u64>,
    /// When the newest client of the list last arrived, where it is told.
    pub newest: Option<u64>,
}

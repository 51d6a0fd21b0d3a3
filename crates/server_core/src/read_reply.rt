use mru_read::Page;

/// What becomes of a read of the client list.
#[derive(Drop)]
pub enum ReadReply {
    /// No answer: the restrict flags of the sender refuse every datagram, or every control message.
    Ignored,
    /// The restrict flags of the sender prohibit reads of the client list.
    Prohibited,
    /// Clients are named, and none stands in the list as named.
    Refused,
    /// This page, with the status word of the system.
    Page { status: u16, page: Page },
}

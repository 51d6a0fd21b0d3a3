use mru_items::Shown;

/// How a listing ended.
#[derive(Clone, Copy, Debug, PartialEq, Eq)]
pub enum End {
    /// The last page ended the client list, at this time.
    Listed(u64),
    /// A whole answer was none that was asked for.
    BadReply,
    /// The server refused a request, with this error code (RFC 9327, section 3.4).
    Refused(u8),
}

/// A listing of a client list that was completed.
#[derive(Drop)]
pub struct Listing {
    /// A row a client, as it was told last, in the order in which they were told.
    pub rows: Shown,
    /// When the last page was read, as a timestamp.
    pub now: u64,
    /// How many pages it took.
    pub pages: u32,
    /// How many reads were refused since no named client stood in the list.
    pub refused: u32,
}

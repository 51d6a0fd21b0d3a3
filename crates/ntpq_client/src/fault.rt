/// Why there is no whole answer.
#[derive(Clone, Copy, Debug, PartialEq, Eq)]
pub enum AskFault {
    /// The port could not do it; its count of faults rose.
    Port,
    /// Nothing will come any more.
    Closed,
    /// Five takes found nothing since the last datagram that was used.
    NoReply,
    /// The server refused the request, with this error code (RFC 9327, section 3.4).
    Refused(u8),
    /// A request was to be posted, and 60,000 were.
    Incomplete,
    /// 1,000,000 datagrams were not used.
    Flooded,
    /// Memory was wanting.
    NoMemory,
}

use edge_traits::Text;

/// The version of all requests of a query tool (our own rule).
pub const REQUEST_VERSION: u8 = 2;

/// A request, without its sequence number (RFC 9327, section 2).
#[derive(Drop)]
pub struct Request {
    /// The version number, of 3 bits.
    pub version: u8,
    /// The operation code, of 5 bits.
    pub opcode: u8,
    /// The association, or 0 for the system.
    pub assoc: u16,
    /// The octets that the count counts, at most 468.
    pub body: Text,
}

ghost use Rattle.std.specs.Prelude.{◌≤◌};

/// The octets before the body.
pub const HEAD_LEN: usize = 12;

/// The most octets of a body (RFC 9327, section 2).
pub const MAX_BODY: usize = 468;

/// A control message, in the order of its octets (RFC 9327, section 2).
#[derive(Clone, Copy, Debug, PartialEq, Eq)]
pub struct Frame<'a> {
    /// The leap indicator, of 2 bits: 0 in every control message.
    pub leap: u8,
    /// The version number, of 3 bits.
    pub version: u8,
    /// Whether this is a response.
    pub response: bool,
    /// Whether this response is an error.
    pub error: bool,
    /// Whether further fragments of the response follow.
    pub more: bool,
    /// The operation code, of 5 bits.
    pub opcode: u8,
    /// The number that a request and its responses share.
    pub sequence: u16,
    /// The status word, of the system, an association or an error.
    pub status: u16,
    /// The association, or 0 for the system.
    pub assoc: u16,
    /// The place of the body's first octet in the whole response.
    pub offset: u16,
    /// The octets that the count counts.
    pub body: &'a [u8],
    /// What follows them: padding and, after it, anything else.
    pub rest: &'a [u8],
}

/// Why octets are no control message, in the order of the tests.
#[derive(Clone, Copy, Debug, PartialEq, Eq)]
pub enum FrameFault {
    /// There are fewer than 12 octets.
    Short,
    /// The version is not 1 to 4.
    BadVersion,
    /// The mode is not 6.
    BadMode,
    /// The count is over 468, or more octets than follow.
    BadCount,
}

/// What the responses to one request have in common.
#[derive(Clone, Copy, Debug, PartialEq, Eq)]
pub struct Head {
    /// The version number, of 3 bits.
    pub version: u8,
    /// The operation code, of 5 bits.
    pub opcode: u8,
    /// The number that a request and its responses share.
    pub sequence: u16,
    /// The status word, of the system or an association.
    pub status: u16,
    /// The association, or 0 for the system.
    pub assoc: u16,
    pub ghost version_in: { version ≤ 7 },
    pub ghost opcode_in: { opcode ≤ 31 },
}

/// The least octets of an extension field: four words (RFC 5905, section 7.5).
pub const MIN_FIELD_LEN: usize = 16;

/// The most octets of a MAC: a key id of 4 and a digest of 20. Where more remain, a field is next.
pub const MAX_MAC_LEN: usize = 24;

/// The octets of a MAC's key id (RFC 5905, section 7.3).
pub const KEY_ID_LEN: usize = 4;

/// What follows a packet's header. Places count from the packet's first octet.
#[derive(Clone, Copy, Debug, PartialEq, Eq)]
pub struct Trailer {
    /// The first place behind the extension fields.
    pub fields_end: usize,
    /// The message authentication code, where there is one.
    pub mac: Option<Mac>,
}

/// A message authentication code: a key id, and mostly a digest (RFC 5905, section 7.3).
#[derive(Clone, Copy, Debug, PartialEq, Eq)]
pub struct Mac {
    /// The key's id, the first four octets.
    pub id: u32,
    /// The place of the key id.
    pub start: usize,
    /// The octets of the key id and the digest: 4, 20 or 24.
    pub length: usize,
}

/// Why octets are no extension fields and MAC, in the order of the tests.
#[derive(Clone, Copy, Debug, PartialEq, Eq)]
pub enum TrailerFault {
    /// The octets after the header are no whole words of four.
    Ragged,
    /// A field's length is under 16 or no multiple of 4.
    FieldShort,
    /// A field is longer than what remains.
    FieldLong,
    /// What remains behind the fields is no MAC.
    BadRemainder,
}

//! The operation codes of control messages (RFC 9327, section 2, table 1).

/// Read the status of the system or an association.
pub const OP_READ_STATUS: u8 = 1;

/// Read variables of the system or an association.
pub const OP_READ_VARIABLES: u8 = 2;

/// Write variables.
pub const OP_WRITE_VARIABLES: u8 = 3;

/// Read clock variables.
pub const OP_READ_CLOCK: u8 = 4;

/// Write clock variables.
pub const OP_WRITE_CLOCK: u8 = 5;

/// Set the address and port of a trap.
pub const OP_SET_TRAP: u8 = 6;

/// The response of a trap.
pub const OP_TRAP_RESPONSE: u8 = 7;

/// Configure at run time.
pub const OP_CONFIGURE: u8 = 8;

/// Export the configuration to a file.
pub const OP_EXPORT_CONFIGURATION: u8 = 9;

/// Read the statistics of remote addresses: the client list, or MRU list.
pub const OP_READ_MRU: u8 = 10;

/// Read an ordered list.
pub const OP_READ_ORDERED_LIST: u8 = 11;

/// Ask for a nonce of the client.
pub const OP_READ_NONCE: u8 = 12;

/// Unset the address and port of a trap.
pub const OP_UNSET_TRAP: u8 = 31;

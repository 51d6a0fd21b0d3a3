//! The codes of error responses (RFC 9327, section 3.4, table 9).

/// The authentication failed.
pub const BAD_AUTHENTICATION: u8 = 1;

/// The length or the format of the message is invalid.
pub const BAD_FORMAT: u8 = 2;

/// The operation code is invalid.
pub const BAD_OPERATION: u8 = 3;

/// No association has this number.
pub const BAD_ASSOCIATION: u8 = 4;

/// No variable has this name.
pub const BAD_NAME: u8 = 5;

/// The value of a variable is invalid.
pub const BAD_VALUE: u8 = 6;

/// The operator forbids it.
pub const PROHIBITED: u8 = 7;

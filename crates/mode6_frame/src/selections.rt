//! The selection codes of the peer status word (RFC 9327, section 3.2, table 6).

/// It is no candidate.
pub const REJECTED: u8 = 0;

/// The intersection algorithm casts it out.
pub const FALSETICKER: u8 = 1;

/// There was no room for it.
pub const EXCESS: u8 = 2;

/// The cluster algorithm casts it out.
pub const OUTLIER: u8 = 3;

/// A survivor, which the combine algorithm includes.
pub const SURVIVOR: u8 = 4;

/// A survivor past the most that are combined.
pub const BACKUP: u8 = 5;

/// The system peer.
pub const SYSTEM_PEER: u8 = 6;

/// The peer that gives a pulse each second.
pub const PPS_PEER: u8 = 7;

//! Symmetric keys and the message authentication codes that are made with them (RFC 5905, section
//! 7.3).
//!
//! Layer 3. Stands on: `refusals`, `text_words`.
//! Promises: a digest is that of the secret followed by the message; a check is good exactly where
//! the table has the key and the digest given is its digest of the message; a key file is the table
//! that it spells, or refused at its first refused word.
#![tactic(auto)]

pub mod checking;
mod comparing;
pub mod digesting;
pub mod digests;
pub mod key_files;
mod key_lines;
pub mod key_types;
pub mod keys;
pub mod tables;

pub use checking::{Auth, check, is_authentic};
pub use digesting::digest;
pub use digests::Digest;
pub use key_files::{KeysFault, read_keys};
pub use keys::{
    Algorithm, Key, MAX_HEX_DIGITS, MAX_KEY_ID, MAX_PLAIN_SECRET, MAX_SECRET, MIN_HEX_DIGITS,
    MIN_KEY_ID, Secret,
};
pub use tables::{KeyTable, MAX_KEYS};

//! Network addresses: an IP address with a port, prefixes of addresses, and their texts.
//!
//! Layer 1. Stands on: `text_words`.
//! Promises: every address's text is read back; nothing outside the grammar is read.
#![tactic(auto)]

pub mod addr;
pub mod addr_text;
mod groups;
pub mod ip_reader;
pub mod laws;
pub mod masks;
pub mod matching;
mod numbers;
pub mod prefix;
pub mod prefix_reader;
pub mod reader;

pub use addr::{Addr, Ip, bits, is_same_addr, is_same_family, is_same_ip, number};
pub use addr_text::{AddrText, write_ip, write_text};
pub use ip_reader::read_ip;
pub use masks::{mask_length, prefix_of};
pub use matching::in_prefix;
pub use prefix::Prefix;
pub use prefix_reader::read_prefix;
pub use reader::{read_named, read_text};

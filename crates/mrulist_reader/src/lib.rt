//! The reader of a listing of the client list: what it asks for next, and what it makes of each
//! answer (RFC 9327, section 4, commands 10 and 12; the rules are our own).
//!
//! Layer 6. Stands on: `ntpq_client`, `mru_items`, `mode6_frame`, `edge_traits`, `net_addr`.
//! Promises: each step is that of the definition; a client's row is the one that was told last.
#![tactic(auto)]

pub mod confirming;
pub mod known;
pub mod listing;
pub mod progress;
pub mod reader;
pub mod requests;
pub mod table;
pub mod trail;

pub use listing::{End, Listing};
pub use reader::Reader;

//! Pages of the client list, or MRU list: which clients a read shows, and the datagrams that tell
//! them (RFC 9327, section 4, command 10; where a page begins and ends is our own rule).
//!
//! Layer 4. Stands on: `recency`, `mru_items`, `mode6_frame`, `edge_traits`, `net_addr`,
//! `fixed_time`.
//! Promises: a page goes on behind the first named client that stands as named, and has as many
//! rows as its bounds hold; it is refused exactly where clients are named and none stands so;
//! each page has a row or ends the list.
#![tactic(auto)]

pub mod datagrams;
pub mod laws;
pub mod pages;
pub mod paging;
mod passing;
mod sizes;
mod starting;
mod taking;

pub use datagrams::page_grams;
pub use pages::{Page, PageFault, Rows};
pub use paging::page;

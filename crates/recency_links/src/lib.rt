//! The client list, or MRU list, at constant cost: rows in linked nodes, found by an index.
//!
//! Layer 4. Stands on: `recency`, `access_rules`, `net_addr`.
//! Promises: those of `recency` for a client list; an arrival reads two rows at most, a look-up two.
#![tactic(auto)]

mod admitting;
mod arriving;
mod filling;
mod index;
pub mod linked_list;
mod links;
mod node;
mod reading;
mod sweeping;
mod touching;

pub use linked_list::LinkedList;

//! Numbers that are drawn one after another from a state of 64 bits, and the clients that they name.
//!
//! Layer 7. Stands on: `net_addr`.
//! Promises: each draw is that of its state, and leaves the next one; each number below that of the
//! clients has an address of its own.
#![tactic(auto)]

pub mod clients;
pub mod draws;

pub use clients::{CLIENTS, client_addr};
pub use draws::Draws;

//! A wire between a client that lists clients and a worker of the server: what happened at both
//! ports, in one order.
//!
//! Layer 7. Stands on: `list_telling`, `responders`, `worker`, `pilot`, `giving`, `shared_book`,
//! `server_core`, `sys_vars`, `mrulist_coverage`, `mrulist_reader`, `ntpq_client`, `mode6_nonce`,
//! `mode6_frame`, `mru_read`, `mru_items`, `recency`, `mac_keys`, `edge_traits`, `net_addr`,
//! `turnstile`.
//! Promises: over an honest wire, which may lose datagrams, repeat them, and bring them late and in
//! another order, all that the client took is told from the history of the worker's session; and a
//! listing of a session over it covers.
#![tactic(auto)]

pub mod laws;
mod placing;
pub mod session_laws;
#[cfg(test)]
mod tests;
pub mod wire;

pub use placing::{Places, places_of};
pub use wire::{Wire, WireEvent};

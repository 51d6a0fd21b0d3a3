//! The giving of an answer at a port: the datagrams of a response, in their order, up to one that the
//! port does not give.
//!
//! Layer 5. Stands on: `server_core`, `sys_vars`, `mac_keys`, `mru_read`, `mode6_frame`,
//! `edge_traits`, `net_addr`.
//! Promises: a front of the datagrams of the response was given, to where it is due, and all of them
//! unless the port failed or memory was wanting.
#![tactic(auto)]

mod given;

pub use given::{GiveEnd, Given, give_response};

//! What a server tells of its client list, as the query tool takes it: each answer of the sequential
//! server is one that a listing may count on.
//!
//! Layer 7. Stands on: `server_core`, `mrulist_coverage`, `mru_read`, `mru_items`, `mode6_frame`,
//! `mode6_nonce`, `recency`, `sys_vars`, `access_rules`, `mac_keys`, `edge_traits`, `net_addr`,
//! `fixed_time`.
//! Promises: over a legal history of a server, what a listing may be told is a history of one client
//! list; and each datagram that answers a request of a listing is an answer of that history, at the
//! place of its read.
#![tactic(auto)]

pub mod laws;

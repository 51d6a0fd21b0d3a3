//! Why a listing of the client list that completed covers it: laws over what happens at a
//! client's port, whatever was lost, repeated or reordered, and over every history of the list.
//!
//! Layer 6. Stands on: `mrulist_reader`, `ntpq_client`, `mru_read`, `recency`, `mru_items`,
//! `mode6_frame`, `edge_traits`, `net_addr`.
//! Promises: where the server's answers are told from one history of its client list, a completed
//! listing has each client of the list last read that passes the filter exactly once.
#![tactic(auto)]

pub mod laws;

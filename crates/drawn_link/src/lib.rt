//! A drawn link: a server behind the port of a query tool in one process, where a number draws what
//! else the server does, and which datagrams are lost, come twice or come early.
//!
//! Layer 7. Stands on: `draws`, `wire`, `list_telling`, `worker`, `giving`, `shared_book`, `server_core`,
//! `mrulist_run`, `mrulist_coverage`, `mrulist_reader`, `ntpq_client`, `mru_read`, `mru_items`,
//! `recency`, `access_rules`, `sys_vars`, `mac_keys`, `edge_traits`, `net_addr`, `fixed_time`.
//! Promises: whatever number draws a link, what a listing over it took is told from the one history of
//! its server, and a listing that completed covers the client list at the place of its last page.
#![tactic(auto)]

mod answering;
mod arrivals;
mod begin;
mod happening;
mod kinds;
pub mod link;
pub mod run;
mod serving;
mod settling;
#[cfg(test)]
mod tests;

pub use link::{DRAWN_GIVES, DrawnLink, TICK};
pub use run::{LinkEnd, link_run};
